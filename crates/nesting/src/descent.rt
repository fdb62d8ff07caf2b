// The first sticks of a layer with the depth of each contour, by a sweep along the rows.
ghost use Rattle.grid.specs.Plain.{plain};
ghost use Rattle.contour.specs.Remaining.{firsts_left};
ghost use Rattle.nesting.specs.Sweeps.{Counted};
ghost use Rattle.nesting.specs.Depths.{AllFirst};

use super::nested::Nested;
use super::set::Nesting;
use super::sweep::{Sweep, sweep_to};
use contour::FirstSticks;

// The first sticks that are still to come, and where the sweep stands: at the west end of the last one.
#[derive(Clone, Copy)]
pub struct NestedFirsts<'l, 's, 'b> {
    pub nesting: Nesting<'l, 's, 'b>,
    pub firsts: FirstSticks<'l, 's>,
    pub at: Sweep,
    pub ghost all_first: { AllFirst (plain nesting.contours.layer) (firsts_left firsts) },
    pub ghost counted: { Counted (plain nesting.contours.layer) at },
}

impl<'l, 's, 'b> Iterator for NestedFirsts<'l, 's, 'b> {
    type Item = Nested;

    ghost use Rattle.std.specs.Iterator.{YieldsFirst, item_count};
    ghost use Rattle.nesting.specs.Remaining.{nested_left};

    ghost next_gives = { YieldsFirst nested_left };

    ghost remaining = { item_count nested_left };

    // The depth is how many contours are around the west end.
    fn next(&mut self) -> Option<Nested> {
        let first = self.firsts.next()?;
        self.at = sweep_to(self.nesting, self.at, first);
        Some(Nested {
            first,
            depth: self.at.around,
        })
    }
}
