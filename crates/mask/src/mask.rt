// The sticks among eight edges of a row at once: a row's byte against its shifted self for the horizontal ones, and against the next
// row's for the vertical ones.
ghost use Rattle.std.specs.Prelude.{◌≡◌, ℕ, ◌+◌, ◌*◌, ◌≤◌, ◌<◌};
ghost use Rattle.grid.specs.Layer.{stride, bit, follows};
ghost use Rattle.grid.specs.Edges.{edge_rows, StickBits};
ghost use Rattle.grid.specs.Plain.{plain};

use grid::{Layer, stride_of};

// The byte of a row moved down by one sample: bit b is the sample after the one that bit b of the row's byte is.
fn shifted_byte(layer: Layer, at: usize, row: usize) -> u8
    requires at_bound { at < stride layer.size }
    requires row_lt_height { row < layer.size.height }
    ensures { (b : ℕ) → b < 8 → bit result b ≡ follows (plain layer.entry) (8 * at + b) row }
{
    let here = layer.row_byte(at, row) / 2;
    if at + 1 < stride_of(layer.size) {
        return here + 128 * (layer.row_byte(at + 1, row) % 2);
    }
    here
}

// A one for each stick among the edges of a kind in the columns 8 × at to 8 × at + 7 of a row.
pub fn stick_byte(layer: Layer, vertical: bool, at: usize, row: usize) -> u8
    requires at_bound { at < stride layer.size }
    requires row_bound { row < edge_rows layer.size vertical }
    ensures { StickBits (plain layer.entry) vertical at row result }
{
    let here = layer.row_byte(at, row);
    if vertical {
        return here ^ layer.row_byte(at, row + 1);
    }
    here ^ shifted_byte(layer, at, row)
}

// How many of the eight edges from a column on there are.
pub fn run_length(columns: usize, column: usize) -> usize
    requires { column < columns }
    ensures { (result ≤ 8) × (column + result ≤ columns) × (1 ≤ result) × (result < 8 → column + result ≡ columns) }
{
    (columns - column).min(8)
}
