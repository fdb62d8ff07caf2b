// Inside samples and sticks, by counting ones in the row bytes.
ghost use Rattle.std.specs.Prelude.{◌≡◌, ◌≤◌, ◌*◌, ◌<◌};
ghost use Rattle.arith.specs.Ranges.{count};
ghost use Rattle.grid.specs.Layer.{bit, sample_in};
ghost use Rattle.grid.specs.Edges.{edge_columns, edge_rows, stick_in, stick_of};
ghost use Rattle.mask.specs.Counts.{inside_count, stick_count};
ghost use Rattle.grid.specs.Plain.{plain};

use super::mask::stick_byte;
use grid::{Layer, edge_rows, stride_of};

fn ones_of(x: u8) -> usize
    ensures value { result ≡ count (bit x) 8 }
    ensures upper_bound { result ≤ 8 }
{
    u8::count_ones(x) as usize
}

fn inside_in_row(layer: Layer, row: usize) -> usize
    requires row_lt_height { row < layer.size.height }
    ensures { result ≡ count (sample_in (plain layer.entry) row) layer.entry.size.width }
{
    let bytes = stride_of(layer.size);
    let mut total: usize = 0;
    for at in 0..bytes {
        total += ones_of(layer.row_byte(at, row));
    }
    total
}

// The inside samples of a layer.
pub fn inside_count(layer: Layer) -> usize
    ensures { result ≡ inside_count (plain layer.entry) }
{
    let height = layer.size.height;
    let mut total: usize = 0;
    for row in 0..height {
        total += inside_in_row(layer, row);
    }
    total
}

fn sticks_in_row(layer: Layer, vertical: bool, row: usize) -> usize
    requires row_bound { row < edge_rows layer.size vertical }
    ensures { result ≡ count (stick_in (plain layer.entry) vertical row) (edge_columns layer.entry.size vertical) }
{
    let bytes = stride_of(layer.size);
    let mut total: usize = 0;
    for at in 0..bytes {
        total += ones_of(stick_byte(layer, vertical, at, row));
    }
    total
}

fn sticks_of_kind(layer: Layer, vertical: bool) -> usize
    ensures { result ≡ count (stick_of (plain layer.entry) vertical) (edge_rows layer.entry.size vertical * edge_columns layer.entry.size vertical) }
{
    let rows = edge_rows(layer.size, vertical);
    let mut total: usize = 0;
    for row in 0..rows {
        total += sticks_in_row(layer, vertical, row);
    }
    total
}

// The sticks of a layer.
pub fn stick_count(layer: Layer) -> usize
    ensures { result ≡ stick_count (plain layer.entry) }
{
    sticks_of_kind(layer, false) + sticks_of_kind(layer, true)
}
