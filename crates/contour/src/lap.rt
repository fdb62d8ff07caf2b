// The sticks of a contour, from its first one on in the order of the walk: every loop over them is a `for e in sticks_of(layer, first)`.
ghost use Rattle.std.specs.Prelude.{◌≡◌, true};
ghost use Rattle.grid.specs.Plain.{plain};
ghost use Rattle.grid.specs.Edges.{is_stick};
ghost use Rattle.contour.specs.Walk.{OnContour};
ghost use Rattle.contour.specs.Contours.{walk_of, AtOn};

use grid::{Edge, Layer};
use step::next_stick;

// The walk along the contour of `first`: `at` is the stick that comes next, if it is not over.
#[derive(Drop)]
pub struct ContourWalk<'a> {
    pub layer: Layer<'a>,
    pub first: Edge,
    pub at: Option<Edge>,
    pub ghost first_stick: { is_stick (plain layer) first ≡ true },
    pub ghost on_contour: { AtOn (plain layer) first at },
}

impl<'a> Iterator for ContourWalk<'a> {
    type Item = Edge;

    ghost use Rattle.std.specs.Iterator.{YieldsFirst, item_count};
    ghost use Rattle.contour.specs.Remaining.{sticks_left};

    ghost next_gives = { YieldsFirst sticks_left };

    ghost remaining = { item_count sticks_left };

    fn next(&mut self) -> Option<Edge> {
        let here = self.at?;
        let after = next_stick(self.layer, here);
        self.at = if after == self.first {
            None
        } else {
            Some(after)
        };
        Some(here)
    }
}
