// The public call Smooth.
ghost use Rattle.std.specs.Prelude.{◌≡◌};
ghost use Rattle.grid.specs.Layer.{layer_of, size_of};
ghost use Rattle.smooth.specs.Call.{smooth_of, outcome};

use super::settling::{Settling, smooth_contours};
use bitset::{EdgeSet, WORDS};
use contour::ContourSet;
use grid::{Layer, Refused, Size};
use held::ask_kept_firsts;

// Smooths the contours of a layer whose vertices are all kept, each to its end before the next. A refusal leaves the table as found.
pub fn smooth(
    w: u16,
    h: u16,
    bitmap: &[u8],
    table: &mut [u16],
    limit: u16,
) -> Result<Settling, Refused>
    ensures { outcome result table.new ≡ smooth_of (layer_of (size_of w h) bitmap.now) limit table.old }
{
    let size = Size {
        width: w as usize,
        height: h as usize,
    };
    let mut set: EdgeSet = [0; WORDS];
    ask_kept_firsts(size, bitmap, table, &mut set)?;
    let layer = Layer { size, bitmap };
    let contours = ContourSet {
        layer,
        firsts: &set,
    };
    Ok(smooth_contours(contours, table, limit))
}
