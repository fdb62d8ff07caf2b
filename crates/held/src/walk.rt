// One contour: how many vertices are kept, and whether each drawn edge crosses what it must.
ghost use Rattle.std.specs.Prelude.{◌≡◌};
ghost use Rattle.grid.specs.Plain.{plain};
ghost use Rattle.table.specs.Lent.{LentAt};
ghost use Rattle.held.specs.Held.{held_contour};

use super::edge::held_at;
use contour::sticks_of;
use grid::{Edge, Layer};
use table::{entry_at, is_kept};

// Whether the contour that starts at `first` is held. The last kept vertex answers for the edge that leads back to the first one.
pub fn held_contour(layer: Layer, table: &[u16], first: Edge) -> bool
    requires { LentAt (plain layer) table.now first }
    ensures { result ≡ held_contour (plain layer.entry) table.now first }
{
    let mut kept: usize = 0;
    for e in sticks_of(layer, first) {
        if is_kept(entry_at(layer.size, table, e)) {
            if !held_at(layer, table, e) {
                return false;
            }
            kept += 1;
        }
    }
    3 <= kept
}
