// The area growing from stick to stick: the sum after each drawn edge, in the order of the number of the stick it starts from.
ghost use Rattle.std.specs.Prelude.{◌+◌, ◌*◌, ◌≤◌, ◌<◌, length};
ghost use Rattle.grid.specs.Layer.{stride};
ghost use Rattle.grid.specs.Edges.{edge_rows, number};
ghost use Rattle.grid.specs.Plain.{plain};
ghost use Rattle.held.specs.Questions.{Accepted};
ghost use Rattle.shoelace.specs.Sums.{drawn_count};
ghost use Rattle.shoelace.specs.Running.{state, Below, Onward, spot, InRow, AtStick, AllSummed};

use super::adds::edge_adds;
use bitset::ones_of;
use grid::{Edge, Layer, edge_rows, stride_of};
use mask::stick_byte;
use table::{entry_at, is_kept};

// The sum over the drawn edges so far, and how many they are.
#[derive(Clone, Copy)]
pub struct Running {
    pub sum: i64,
    pub edges: usize,
}

// Goes on past a stick: if its vertex is kept, the sum after its drawn edge is stored at the next place.
fn put_sum(layer: Layer, table: &[u16], e: Edge, sums: &mut [i64], running: &mut Running)
    requires { AtStick (plain layer) table.now e (state sums.old running.old) }
    ensures { Onward (plain layer.entry) table.now (number layer.entry.size e) (state sums.old running.old) (number layer.entry.size e + 1) (state sums.new running.new) }
{
    if is_kept(entry_at(layer.size, table, e)) {
        running.sum += edge_adds(layer, table, e);
        sums[running.edges] = running.sum;
        running.edges += 1;
    }
}

// The edges of a kind in the columns 8 × at to 8 × at + 7 of a row: from stick to stick, so that a byte without one costs a single test.
fn sums_in_byte(
    layer: Layer,
    table: &[u16],
    vertical: bool,
    row: usize,
    at: usize,
    sums: &mut [i64],
    running: &mut Running,
)
    requires at_bound { at < stride layer.size }
    requires in_row { InRow (plain layer) table.now vertical row (8 * at) (state sums.old running.old) }
    ensures { Onward (plain layer.entry) table.now (spot layer.entry.size vertical row (8 * at)) (state sums.old running.old) (spot layer.entry.size vertical row (8 * (at + 1))) (state sums.new running.new) }
{
    for b in ones_of(u64::from(stick_byte(layer, vertical, at, row))) {
        let e = Edge {
            vertical,
            column: 8 * at + b,
            row,
        };
        put_sum(layer, table, e, sums, running);
    }
}

fn sums_in_row(
    layer: Layer,
    table: &[u16],
    vertical: bool,
    row: usize,
    sums: &mut [i64],
    running: &mut Running,
)
    requires { InRow (plain layer) table.now vertical row 0 (state sums.old running.old) }
    ensures { Onward (plain layer.entry) table.now (spot layer.entry.size vertical row 0) (state sums.old running.old) (spot layer.entry.size vertical (row + 1) 0) (state sums.new running.new) }
{
    for at in 0..stride_of(layer.size) {
        sums_in_byte(layer, table, vertical, row, at, sums, running);
    }
}

fn sums_of_kind(
    layer: Layer,
    table: &[u16],
    vertical: bool,
    sums: &mut [i64],
    running: &mut Running,
)
    requires { Below (plain layer) table.now (spot layer.size vertical 0 0) (state sums.old running.old) }
    ensures { Onward (plain layer.entry) table.now (spot layer.entry.size vertical 0 0) (state sums.old running.old) (spot layer.entry.size vertical (edge_rows layer.entry.size vertical) 0) (state sums.new running.new) }
{
    for row in 0..edge_rows(layer.size, vertical) {
        sums_in_row(layer, table, vertical, row, sums, running);
    }
}

// Stores the sum after each drawn edge, and gives the last one, 0 if there is none: horizontal edges have the lower numbers.
pub fn put_sums(layer: Layer, table: &[u16], sums: &mut [i64]) -> i64
    requires accepted { Accepted (plain layer) table.now }
    requires room { drawn_count (plain layer) table.now ≤ length sums.old }
    ensures { AllSummed (plain layer.entry) table.now sums.old sums.new result }
{
    let mut running = Running { sum: 0, edges: 0 };
    sums_of_kind(layer, table, false, sums, &mut running);
    sums_of_kind(layer, table, true, sums, &mut running);
    running.sum
}
