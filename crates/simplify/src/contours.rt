// The contours of a layer simplified one after the other.
ghost use Rattle.std.specs.Prelude.{◌≡◌};
ghost use Rattle.grid.specs.Plain.{plain};
ghost use Rattle.table.specs.Lent.{Lent};
ghost use Rattle.simplify.specs.Runs.{simplify};
ghost use Rattle.simplify.specs.Parts.{reached};

use super::tries::{RunCounts, simplify_contour};
use contour::{ContourSet, firsts_of};

// Simplifies every contour.
pub fn simplify_contours(contours: ContourSet, table: &mut [u16], t: u8) -> RunCounts
    requires { Lent (plain contours.layer) table.old }
    ensures { reached result table.new ≡ simplify (plain contours.entry.layer) t table.old }
{
    let mut removed: usize = 0;
    let mut tried: usize = 0;
    for first in firsts_of(contours) {
        let one = simplify_contour(contours.layer, table, t, first);
        removed += one.removed;
        tried += one.tried;
    }
    RunCounts { removed, tried }
}
