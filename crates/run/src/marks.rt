// Marks along a long contour: the numbers of its sticks at equal distances, by which the stick at any place of it is a short walk away. There
// is room for a contour of as many sticks as a layer of 1,024 × 1,024 has edges, and none is longer.
ghost use Rattle.std.specs.Prelude.{◌≡◌, length};
ghost use Rattle.grid.specs.Plain.{plain};
ghost use Rattle.run.specs.Runs.{stick_after, HasSticks};
ghost use Rattle.run.specs.Marks.{mark_places, MarkedAlong, Along};

use super::walk::stick_after;
use grid::{Edge, Layer, edge_at, number_of};

// How many marks there is room for: a contour has at most 2,095,104 sticks, and one in 64 is marked.
pub const PLACES: usize = 32736;

// How many steps lead from one mark to the next.
const APART: usize = 64;

// Marks the contour of n sticks that starts at `first`.
pub fn put_marks(layer: Layer, first: Edge, n: usize, marks: &mut [u32; PLACES])
    requires has_sticks { HasSticks (plain layer) first n }
    requires marks_len { length marks.old ≡ mark_places }
    ensures same_room { length marks.new ≡ mark_places }
    ensures marked_along { MarkedAlong (plain layer.entry) first marks.new }
{
    let mut at = first;
    for k in 0..n.div_ceil(APART) {
        marks[k] = number_of(layer.size, at) as u32;
        at = stick_after(layer, at, APART);
    }
}

// The stick h steps on from e, which is p steps on from where the marks start: from the mark before it, where e is farther away.
pub fn stick_at(layer: Layer, marks: &[u32], e: Edge, p: usize, h: usize) -> Edge
    requires { Along (plain layer) marks.now e p h }
    ensures { result ≡ stick_after (plain layer.entry) h e }
{
    let place = p + h;
    let (near, steps) = match marks.get(place / APART) {
        Some(&mark) if APART <= h => (edge_at(layer.size, mark as usize), place % APART),
        _ => (e, h),
    };
    stick_after(layer, near, steps)
}
