// The public call Simplify.
ghost use Rattle.std.specs.Prelude.{◌≡◌};
ghost use Rattle.grid.specs.Layer.{layer_of, size_of};
ghost use Rattle.simplify.specs.Call.{simplify_of, outcome};

use super::contours::simplify_contours;
use super::tries::RunCounts;
use bitset::{EdgeSet, WORDS};
use contour::ContourSet;
use grid::{Layer, Refused, Size};
use held::ask_kept_firsts;

// Removes the inner vertices of the runs that pass with the tolerance t. A refusal leaves the table as found.
pub fn simplify(
    w: u16,
    h: u16,
    bitmap: &[u8],
    table: &mut [u16],
    t: u8,
) -> Result<RunCounts, Refused>
    ensures { outcome result table.new ≡ simplify_of (layer_of (size_of w h) bitmap.now) t table.old }
{
    let size = Size {
        width: w as usize,
        height: h as usize,
    };
    let mut set: EdgeSet = [0; WORDS];
    ask_kept_firsts(size, bitmap, table, &mut set)?;
    let layer = Layer { size, bitmap };
    let contours = ContourSet {
        layer,
        firsts: &set,
    };
    Ok(simplify_contours(contours, table, t))
}
