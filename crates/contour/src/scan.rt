// The set of first sticks. The horizontal edges are scanned upward by number. A stick whose bit is set lies on the contour of an earlier
// one: its bit is cleared. A stick whose bit is clear is first: its contour is walked and the bit of each horizontal stick on it set.
ghost use Rattle.std.specs.Prelude.{◌≡◌, ◌+◌, ◌-◌, ◌*◌, ◌<◌};
ghost use mathlib.Core.List.{foldl};
ghost use Rattle.grid.specs.Layer.{stride};
ghost use Rattle.grid.specs.Plain.{plain};
ghost use Rattle.contour.specs.Contours.{contour_of};
ghost use Rattle.bitset.specs.Sets.{Empty};
ghost use Rattle.contour.specs.Sets.{FirstSet};
ghost use Rattle.contour.specs.Marking.{mark_edge, Markable, Scanned, ScannedTo, ScannedAt};

use super::walk::sticks_of;
use bitset::{EdgeSet, contains, insert, ones_of, remove};
use grid::{Edge, Layer, stride_of};
use mask::stick_byte;

// Sets the bit of each horizontal stick on the contour that starts at `first`.
pub fn mark_contour(layer: Layer, set: &mut EdgeSet, first: Edge)
    requires { Markable (plain layer) set.old first }
    ensures { set.new ≡ foldl (mark_edge layer.entry.size) set.old (contour_of (plain layer.entry) first) }
{
    for e in sticks_of(layer, first) {
        if !e.vertical {
            insert(set, e.row * (layer.size.width - 1) + e.column);
        }
    }
}

// One step of the scan, at a horizontal stick.
fn scan_stick(layer: Layer, set: &mut EdgeSet, column: usize, row: usize)
    requires { ScannedAt (plain layer) column row set.old }
    ensures { Scanned (plain layer.entry) (row * (layer.entry.size.width - 1) + column + 1) set.new }
{
    let n = row * (layer.size.width - 1) + column;
    if contains(set, n) {
        remove(set, n);
    } else {
        mark_contour(
            layer,
            set,
            Edge {
                vertical: false,
                column,
                row,
            },
        );
    }
}

// The edges of a row in the columns 8 × at to 8 × at + 7: from stick to stick, so a byte without one costs nothing more.
fn scan_byte(layer: Layer, set: &mut EdgeSet, at: usize, row: usize)
    requires at_bound { at < stride layer.size }
    requires scanned_to { ScannedTo (plain layer) row (8 * at) set.old }
    ensures { ScannedTo (plain layer.entry) row (8 * (at + 1)) set.new }
{
    for b in ones_of(u64::from(stick_byte(layer, false, at, row))) {
        scan_stick(layer, set, 8 * at + b, row);
    }
}

fn scan_row(layer: Layer, set: &mut EdgeSet, row: usize)
    requires { ScannedTo (plain layer) row 0 set.old }
    ensures { Scanned (plain layer.entry) ((row + 1) * (layer.entry.size.width - 1)) set.new }
{
    for at in 0..stride_of(layer.size) {
        scan_byte(layer, set, at, row);
    }
}

// Puts the numbers of all first sticks into the set, in time linear in the number of edges.
pub fn first_sticks(layer: Layer, set: &mut EdgeSet)
    requires empty { Empty set.old }
    ensures { FirstSet (plain layer.entry) set.new }
{
    for row in 0..layer.size.height {
        scan_row(layer, set, row);
    }
}
