// The items of one contour.
ghost use Rattle.std.specs.Prelude.{◌≡◌, length};
ghost use mathlib.Core.List.{foldl};
ghost use Rattle.grid.specs.Plain.{plain};
ghost use Rattle.table.specs.Lent.{LentAt};
ghost use Rattle.drawn.specs.Drawn.{drawn_of};
ghost use Rattle.polyline.specs.Items.{contour_items};
ghost use Rattle.item.specs.Writing.{buffers_of, write_item, Room};

use contour::sticks_of;
use grid::{Edge, Layer};
use item::{Item, Written, item_to, point_of, put_item};
use table::{entry_at, is_kept, offset_in};

// How many vertices of the contour that starts at `first` are kept.
pub fn count_contour(layer: Layer, table: &[u16], first: Edge) -> usize
    requires { LentAt (plain layer) table.now first }
    ensures { result ≡ length (drawn_of (plain layer.entry) table.now first) }
{
    let mut kept: usize = 0;
    for e in sticks_of(layer, first) {
        if is_kept(entry_at(layer.size, table, e)) {
            kept += 1;
        }
    }
    kept
}

// Writes the items of the contour that starts at `first`, and moves the place in the outputs on: a move is due until the first kept vertex.
pub fn write_contour(
    layer: Layer,
    table: &[u16],
    items: &mut [u8],
    points: &mut [f64],
    at: &mut Written,
    first: Edge,
)
    requires lent_at { LentAt (plain layer) table.now first }
    requires room { Room (buffers_of items.old points.old at.old) (contour_items (plain layer) table.now first) }
    ensures { buffers_of items.new points.new at.new ≡ foldl write_item (buffers_of items.old points.old at.old) (contour_items (plain layer.entry) table.now first) }
{
    let mut due = true;
    for e in sticks_of(layer, first) {
        let entry = entry_at(layer.size, table, e);
        if is_kept(entry) {
            let p = point_of(e, offset_in(entry));
            put_item(items, points, at, item_to(due, p));
            due = false;
        }
    }
    put_item(items, points, at, Item::Close);
}
