// Writes the table of a traced layer, eight entries at a time, from the byte that marks the sticks among them.
ghost use Rattle.std.specs.Prelude.{◌≡◌, ◌<◌, ◌≤◌, ◌*◌, length, slice_index, EachIndex};
ghost use Rattle.arith.specs.Ranges.{fill};
ghost use Rattle.grid.specs.Layer.{bit};
ghost use Rattle.grid.specs.Edges.{edge_columns, edge_rows, edge_count, kind_start, row_start};
ghost use Rattle.grid.specs.Plain.{plain};
ghost use Rattle.table.specs.Lent.{Lent, LentRow};
ghost use Rattle.trace.specs.Trace.{traced, traced_entry};

use grid::Layer;
use table::Entry;

// A vertex kept at 128 for a one, no stick for a zero.
fn entry_at(marks: u8, b: usize) -> u16
    requires { b < 8 }
    ensures { result ≡ traced (bit marks b) }
{
    if (marks >> b) % 2 == 1 {
        u16::from(Entry::Kept(128))
    } else {
        u16::from(Entry::Nothing)
    }
}

// The entries of up to eight edges: bit b of marks says whether the b-th of them is on a stick.
fn fill_run(run: &mut [u16], marks: u8)
    requires { length run.old ≤ 8 }
    ensures { EachIndex run.new (λ b. slice_index run.new b ≡ traced (bit marks b)) }
{
    for (b, entry) in run.iter_mut().enumerate() {
        *entry = entry_at(marks, b);
    }
}

fn fill_row(layer: Layer, table: &mut [u16], vertical: bool, row: usize)
    requires { LentRow (plain layer) table.old vertical row }
    ensures { table.new ≡ fill (traced_entry (plain layer.entry)) (row_start layer.entry.size vertical row) (edge_columns layer.entry.size vertical) table.old }
{
    let columns = grid::edge_columns(layer.size, vertical);
    let start = grid::row_start(layer.size, vertical, row);
    for at in 0..columns.div_ceil(8) {
        let marks = mask::stick_byte(layer, vertical, at, row);
        let from = start + 8 * at;
        let to = from + mask::run_length(columns, 8 * at);
        fill_run(&mut table[from..to], marks);
    }
}

fn fill_kind(layer: Layer, table: &mut [u16], vertical: bool)
    requires { Lent (plain layer) table.old }
    ensures { table.new ≡ fill (traced_entry (plain layer.entry)) (kind_start layer.entry.size vertical) (edge_rows layer.entry.size vertical * edge_columns layer.entry.size vertical) table.old }
{
    for row in 0..grid::edge_rows(layer.size, vertical) {
        fill_row(layer, table, vertical, row);
    }
}

// The whole table.
pub fn fill_table(layer: Layer, table: &mut [u16])
    requires { Lent (plain layer) table.old }
    ensures { table.new ≡ fill (traced_entry (plain layer.entry)) 0 (edge_count layer.entry.size) table.old }
{
    fill_kind(layer, table, false);
    fill_kind(layer, table, true);
}
