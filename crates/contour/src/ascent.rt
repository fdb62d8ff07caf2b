// The first sticks of a layer, one for each contour, in ascending order of their numbers.
ghost use Rattle.std.specs.Prelude.{true, ◌≤◌};
ghost use Rattle.grid.specs.Edges.{kind_start};

use super::set::ContourSet;
use bitset::next_first;
use grid::{Edge, edge_in, kind_start};

// Those with number `from` or above. First sticks are horizontal, so the search ends where the vertical edges begin.
#[derive(Clone, Copy)]
pub struct FirstSticks<'l, 's> {
    pub contours: ContourSet<'l, 's>,
    pub from: usize,
    pub ghost within: { from ≤ kind_start contours.layer.size true },
}

impl<'l, 's> Iterator for FirstSticks<'l, 's> {
    type Item = Edge;

    ghost use Rattle.std.specs.Iterator.{YieldsFirst, item_count};
    ghost use Rattle.contour.specs.Remaining.{firsts_left};

    ghost next_gives = { YieldsFirst firsts_left };

    ghost remaining = { item_count firsts_left };

    fn next(&mut self) -> Option<Edge> {
        let size = self.contours.layer.size;
        let number = next_first(self.contours.firsts, self.from, kind_start(size, true))?;
        self.from = number + 1;
        Some(edge_in(size, false, number))
    }
}
