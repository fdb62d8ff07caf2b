// The layer program's work as one call.
ghost use Rattle.std.specs.Prelude.{◌≡◌};
ghost use Rattle.slicing.specs.Slice.{slice_of, stored, outcome};

use super::command::{COMMAND_LENGTH, HEIGHT_AT, WIDTH_AT, has_command, number_at, sides_fit};
use super::steps::{refuse, slice_layer};
use grid::Refusal;

// The length of the longest answer: `answer_limit` of specs/Slice.antt.
pub const ANSWER_LIMIT: usize = 28230;

// Writes the answer to an input, and returns how long it is.
pub fn slice(input: &[u8], output: &mut [u8; ANSWER_LIMIT]) -> usize
    ensures { outcome result output.new ≡ stored output.old (slice_of input.now) }
{
    if !has_command(input) {
        return refuse(Refusal::BitmapLength, output);
    }
    let w = number_at(input, WIDTH_AT);
    let h = number_at(input, HEIGHT_AT);
    if !sides_fit(w, h) {
        return refuse(Refusal::BadSides, output);
    }
    slice_layer(w, h, &input[COMMAND_LENGTH..], output)
}
