// Question 7, questions 1 to 7 in order, and 15 after them.
ghost use Rattle.std.specs.Prelude.{◌≡◌, [], ◌∷◌};
ghost use Rattle.grid.specs.Layer.{layer_of};
ghost use Rattle.grid.specs.Questions.{first_no, Yes};
ghost use Rattle.grid.specs.Plain.{plain};
ghost use Rattle.bitset.specs.Sets.{Empty};
ghost use Rattle.contour.specs.Sets.{FirstSet};
ghost use Rattle.table.specs.Entries.{entries_answer};
ghost use Rattle.table.specs.Kept.{all_kept_answer};
ghost use Rattle.table.specs.Lent.{Lent};
ghost use Rattle.held.specs.Held.{held_answer};
ghost use Rattle.held.specs.Questions.{entry_questions, held_questions, kept_questions};

use super::walk::held_contour;
use bitset::{EdgeSet, WORDS};
use contour::{ContourSet, first_sticks, firsts_of};
use grid::{Answer, Layer, Refusal, Size, number_of};
use table::{ask_all_kept, ask_entries, ask_lengths};

// Question 7.
fn ask_contours(contours: ContourSet, table: &[u16]) -> Answer
    requires { Lent (plain contours.layer) table.now }
    ensures { result ≡ held_answer (plain contours.entry.layer) table.now }
{
    for first in firsts_of(contours) {
        if !held_contour(contours.layer, table, first) {
            return Err(Refusal::NotHeld.at(number_of(contours.layer.size, first)));
        }
    }
    Ok(())
}

// Questions 7 and 15, of a layer that passed 1 to 6. Where nothing is removed every drawn edge is a single link, so the layer is held: the
// walk for question 7 is made only if 15 is answered no.
fn ask_kept(contours: ContourSet, table: &[u16]) -> Answer
    requires lent { Lent (plain contours.layer) table.now }
    requires entries_right { entries_answer (plain contours.layer) table.now ≡ Yes }
    ensures { result ≡ first_no (held_answer (plain contours.entry.layer) table.now ∷ all_kept_answer contours.entry.layer.size table.now ∷ []) }
{
    let kept = ask_all_kept(contours.layer.size, table);
    if kept.is_err() {
        ask_contours(contours, table)?;
    }
    kept
}

// Questions 1 to 6.
fn ask_six(size: Size, bitmap: &[u8], table: &[u16]) -> Answer
    ensures { result ≡ first_no (entry_questions (layer_of size bitmap.now) table.now) }
{
    ask_lengths(size, bitmap, table.len())?;
    ask_entries(Layer { size, bitmap }, table)
}

// Questions 1 to 7. Where all are answered yes, the set is that of the first sticks, for what the call does next.
pub fn ask_held_firsts(size: Size, bitmap: &[u8], table: &[u16], set: &mut EdgeSet) -> Answer
    requires { Empty set.old }
    ensures value { result ≡ first_no (held_questions (layer_of size bitmap.now) table.now) }
    ensures first_set { result ≡ Yes → FirstSet (layer_of size bitmap.now) set.new }
{
    ask_six(size, bitmap, table)?;
    let layer = Layer { size, bitmap };
    first_sticks(layer, set);
    ask_contours(ContourSet { layer, firsts: set }, table)
}

// Questions 1 to 7 and 15, likewise.
pub fn ask_kept_firsts(size: Size, bitmap: &[u8], table: &[u16], set: &mut EdgeSet) -> Answer
    requires { Empty set.old }
    ensures value { result ≡ first_no (kept_questions (layer_of size bitmap.now) table.now) }
    ensures first_set { result ≡ Yes → FirstSet (layer_of size bitmap.now) set.new }
{
    ask_six(size, bitmap, table)?;
    let layer = Layer { size, bitmap };
    first_sticks(layer, set);
    ask_kept(ContourSet { layer, firsts: set }, table)
}

// Questions 1 to 7, for a call that needs no set.
pub fn ask_layer_held(size: Size, bitmap: &[u8], table: &[u16]) -> Answer
    ensures { result ≡ first_no (held_questions (layer_of size bitmap.now) table.now) }
{
    let mut set: EdgeSet = [0; WORDS];
    ask_held_firsts(size, bitmap, table, &mut set)
}
