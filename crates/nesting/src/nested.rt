// The contours of a layer with the depth of each, to go over: `for here in nested_of(nesting) { work on here.first and here.depth }`.
ghost use Rattle.std.specs.Prelude.{◌≡◌};
ghost use Rattle.grid.specs.Plain.{plain};
ghost use Rattle.contour.specs.Contours.{first_sticks};
ghost use Rattle.nesting.specs.Depths.{with_depths};
ghost use Rattle.nesting.specs.Remaining.{nested_left};

use super::descent::NestedFirsts;
use super::set::Nesting;
use super::sweep::Sweep;
use contour::firsts_of;
use grid::Edge;

// A first stick, and the depth of its contour.
#[derive(Clone, Copy)]
pub struct Nested {
    pub first: Edge,
    pub depth: usize,
}

// The first sticks with their depths, in the order of the contours.
pub fn nested_of<'l, 's, 'b>(nesting: Nesting<'l, 's, 'b>) -> NestedFirsts<'l, 's, 'b>
    ensures { nested_left result ≡ with_depths (plain nesting.entry.contours.layer) (first_sticks (plain nesting.entry.contours.layer)) }
{
    NestedFirsts {
        nesting,
        firsts: firsts_of(nesting.contours),
        at: Sweep {
            row: 0,
            column: 0,
            around: 0,
        },
    }
}
