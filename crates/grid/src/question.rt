// The first four questions put to a call, each in time linear in the bitmap.
ghost use Rattle.std.specs.Prelude.{◌≡◌, ◌<◌};
ghost use Rattle.arith.specs.Ranges.{least_of};
ghost use Rattle.grid.specs.Layer.{layer_of, row_end, sample_in};
ghost use Rattle.grid.specs.Questions.{first_no, in_range, sides_answer, length_answer, spare_set, spare_answer, border_in, border_answer, layer_questions, Sized, Whole};

use super::layer::{Size, is_inside, row_byte, stride_of};
use super::refusal::{Answer, Refusal};

fn in_range(n: usize) -> bool
    ensures { result ≡ in_range n }
{
    2 <= n && n <= 1024
}

fn ask_sides(size: Size) -> Answer
    ensures { result ≡ sides_answer size }
{
    if in_range(size.width) && in_range(size.height) {
        Ok(())
    } else {
        Err(Refusal::BadSides.at(0))
    }
}

fn ask_length(size: Size, bitmap: &[u8]) -> Answer
    requires { Sized size }
    ensures { result ≡ length_answer (layer_of size bitmap.now) }
{
    if bitmap.len() == size.height * stride_of(size) {
        Ok(())
    } else {
        Err(Refusal::BitmapLength.at(0))
    }
}

// Where the last byte of a row stands in the bitmap.
fn row_end(size: Size, row: usize) -> usize
    requires sized { Sized size }
    requires row_lt_height { row < size.height }
    ensures { result ≡ row_end size row }
{
    let bytes = stride_of(size);
    row * bytes + (bytes - 1)
}

// Whether the last byte of a row, the only one that has spare bits, has one set.
fn spare_in(size: Size, bitmap: &[u8], row: usize) -> bool
    requires whole { Whole (layer_of size bitmap.now) }
    requires row_lt_height { row < size.height }
    ensures { result ≡ spare_set (layer_of size bitmap.now) (row_end size row) }
{
    let last = stride_of(size) - 1;
    let used = size.width - 8 * last;
    0 < usize::from(row_byte(size, bitmap, last, row)) >> used
}

fn ask_spare(size: Size, bitmap: &[u8]) -> Answer
    requires { Whole (layer_of size bitmap.now) }
    ensures { result ≡ spare_answer (layer_of size bitmap.now) }
{
    for row in 0..size.height {
        if spare_in(size, bitmap, row) {
            return Err(Refusal::SpareBits.at(row_end(size, row)));
        }
    }
    Ok(())
}

// The lowest column of a row whose sample is inside.
fn inside_column(size: Size, bitmap: &[u8], row: usize) -> Option<usize>
    requires whole { Whole (layer_of size bitmap.now) }
    requires row_lt_height { row < size.height }
    ensures { result ≡ least_of (sample_in (layer_of size bitmap.now) row) size.width }
{
    for column in 0..size.width {
        if is_inside(size, bitmap, column, row) {
            return Some(column);
        }
    }
    None
}

// The lowest column of a row whose sample is on the border and inside.
fn border_column(size: Size, bitmap: &[u8], row: usize) -> Option<usize>
    requires whole { Whole (layer_of size bitmap.now) }
    requires row_lt_height { row < size.height }
    ensures { result ≡ least_of (border_in (layer_of size bitmap.now) row) size.width }
{
    if row == 0 || row == size.height - 1 {
        return inside_column(size, bitmap, row);
    }
    if is_inside(size, bitmap, 0, row) {
        return Some(0);
    }
    if is_inside(size, bitmap, size.width - 1, row) {
        return Some(size.width - 1);
    }
    None
}

fn ask_border(size: Size, bitmap: &[u8]) -> Answer
    requires { Whole (layer_of size bitmap.now) }
    ensures { result ≡ border_answer (layer_of size bitmap.now) }
{
    for row in 0..size.height {
        if let Some(column) = border_column(size, bitmap, row) {
            return Err(Refusal::BorderInside.at(row * size.width + column));
        }
    }
    Ok(())
}

// Questions 1 to 4.
pub fn ask_layer(size: Size, bitmap: &[u8]) -> Answer
    ensures { result ≡ first_no (layer_questions (layer_of size bitmap.now)) }
{
    ask_sides(size)?;
    ask_length(size, bitmap)?;
    ask_spare(size, bitmap)?;
    ask_border(size, bitmap)
}
