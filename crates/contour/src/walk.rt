// Going over the sticks of a contour, `for e in sticks_of(layer, first)`, and over all contours by the set of their first sticks,
// `for first in firsts_of(contours)`.
ghost use Rattle.std.specs.Prelude.{◌≡◌, true};
ghost use Rattle.grid.specs.Plain.{plain};
ghost use Rattle.grid.specs.Edges.{is_stick};
ghost use Rattle.contour.specs.Contours.{contour_of, first_sticks};
ghost use Rattle.contour.specs.Remaining.{sticks_left, firsts_left};

use super::ascent::FirstSticks;
use super::lap::ContourWalk;
use super::set::ContourSet;
use grid::{Edge, Layer};

// The sticks of the contour that starts at `first`, in the order of the walk.
pub fn sticks_of<'a>(layer: Layer<'a>, first: Edge) -> ContourWalk<'a>
    requires { is_stick (plain layer) first ≡ true }
    ensures { sticks_left result ≡ contour_of (plain layer.entry) first }
{
    ContourWalk {
        layer,
        first,
        at: Some(first),
    }
}

// The first sticks, in the order of the contours.
pub fn firsts_of<'l, 's>(contours: ContourSet<'l, 's>) -> FirstSticks<'l, 's>
    ensures { firsts_left result ≡ first_sticks (plain contours.entry.layer) }
{
    FirstSticks { contours, from: 0 }
}
