// The steps from a layer to the bytes of its answer: traced, smoothed and simplified in a table of its length, and written as a sheet.
ghost use Rattle.std.specs.Prelude.{◌≡◌, true, ◌≤◌, length};
ghost use Rattle.grid.specs.Layer.{layer_of, size_of};
ghost use Rattle.grid.specs.Edges.{edge_count};
ghost use Rattle.grid.specs.Questions.{number_of, first_no, Yes};
ghost use Rattle.held.specs.Questions.{held_questions};
ghost use Rattle.sheet.specs.Written.{sheet_of};
ghost use Rattle.slicing.specs.Slice.{sides_fit, table_limit, answer_limit, refused_bytes, refined, bytes_in, layer_bytes, stored, outcome};

use grid::{Refusal, Size};

// How many grid edges a layer of 64 by 64 samples has, the most that there can be: `table_limit` of specs/Slice.antt.
const TABLE_LIMIT: usize = 8064;

// "smooths (limit 100), simplifies (T 64)"
const PASS_LIMIT: u16 = 100;

const TOLERANCE: u8 = 64;

// "hex 3F and the number as one byte"
const REFUSAL_MARK: u8 = 0x3F;

// Writes the two bytes of a refusal.
pub fn refuse(question: Refusal, output: &mut [u8]) -> usize
    requires { 2 ≤ length output.old }
    ensures { outcome result output.new ≡ stored output.old (refused_bytes (number_of question)) }
{
    output[0] = REFUSAL_MARK;
    output[1] = u32::from(question) as u8;
    2
}

// Smooths and simplifies a traced layer. Neither call is refused there (proofs/Accepting.antt).
fn refine(w: u16, h: u16, bitmap: &[u8], table: &mut [u16])
    ensures { table.new ≡ refined (layer_of (size_of w h) bitmap.now) table.old }
{
    let _ = smooth::smooth(w, h, bitmap, table, PASS_LIMIT);
    let _ = simplify::simplify(w, h, bitmap, table, TOLERANCE);
}

// Writes the sheet of a layer that passes questions 1 to 7, to an output that holds it.
fn write(w: u16, h: u16, bitmap: &[u8], table: &[u16], output: &mut [u8]) -> usize
    requires held { first_no (held_questions (layer_of (size_of w h) bitmap.now) table.now) ≡ Yes }
    requires room { length (sheet_of (layer_of (size_of w h) bitmap.now) table.now) ≤ length output.old }
    ensures { outcome result output.new ≡ stored output.old (sheet_of (layer_of (size_of w h) bitmap.now) table.now) }
{
    sheet::write_sheet(w, h, bitmap, table, output).unwrap_or(0)
}

// The answer to a layer, by the table that it is traced in.
fn slice_in(w: u16, h: u16, bitmap: &[u8], table: &mut [u16], output: &mut [u8]) -> usize
    requires fits { sides_fit (size_of w h) ≡ true }
    requires room { answer_limit ≤ length output.old }
    ensures { outcome result output.new ≡ stored output.old (bytes_in (layer_of (size_of w h) bitmap.now) table.old) }
{
    if let Err(refused) = trace::trace(w, h, bitmap, table) {
        return refuse(refused.question, output);
    }
    refine(w, h, bitmap, table);
    write(w, h, bitmap, table, output)
}

// How many entries the table of a layer has, one for each grid edge.
fn entry_count(w: u16, h: u16) -> usize
    requires { sides_fit (size_of w h) ≡ true }
    ensures { (result ≡ edge_count (size_of w h)) × (result ≤ table_limit) }
{
    grid::edge_count(Size {
        width: w as usize,
        height: h as usize,
    })
}

// The answer to a layer.
pub fn slice_layer(w: u16, h: u16, bitmap: &[u8], output: &mut [u8]) -> usize
    requires fits { sides_fit (size_of w h) ≡ true }
    requires room { answer_limit ≤ length output.old }
    ensures { outcome result output.new ≡ stored output.old (layer_bytes (layer_of (size_of w h) bitmap.now)) }
{
    let n = entry_count(w, h);
    let mut table = [0u16; TABLE_LIMIT];
    slice_in(w, h, bitmap, &mut table[..n], output)
}
