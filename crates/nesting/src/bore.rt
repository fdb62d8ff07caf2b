// The set of the horizontal sticks that lie on bores.
ghost use Rattle.std.specs.Prelude.{◌≡◌};
ghost use Rattle.grid.specs.Plain.{plain};
ghost use Rattle.bitset.specs.Sets.{Empty};
ghost use Rattle.contour.specs.Marking.{Markable};
ghost use Rattle.nesting.specs.Bores.{mark_bore, BoreSet};

use bitset::EdgeSet;
use contour::{ContourSet, firsts_of, mark_contour};
use grid::{Edge, Layer};

// Sets the bits of the contour that starts at `first`, if it is a bore: if the west end of its first stick is inside.
fn mark_bore(layer: Layer, bores: &mut EdgeSet, first: Edge)
    requires { Markable (plain layer) bores.old first }
    ensures { bores.new ≡ mark_bore (plain layer.entry) bores.old first }
{
    if layer.is_inside(first.column, first.row) {
        mark_contour(layer, bores, first);
    }
}

// Puts the numbers of all horizontal sticks on bores into the set.
pub fn bore_sticks(contours: ContourSet, bores: &mut EdgeSet)
    requires empty { Empty bores.old }
    ensures { BoreSet (plain contours.entry.layer) bores.new }
{
    for first in firsts_of(contours) {
        mark_bore(contours.layer, bores, first);
    }
}
