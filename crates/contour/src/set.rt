// The contours of a layer, by the set of their first sticks.
ghost use Rattle.grid.specs.Plain.{plain};
ghost use Rattle.contour.specs.Sets.{FirstSet};

use bitset::EdgeSet;
use grid::Layer;

// A layer and the set of its first sticks.
#[derive(Clone, Copy)]
pub struct ContourSet<'l, 's> {
    pub layer: Layer<'l>,
    pub firsts: &'s EdgeSet,
    pub ghost first_set: { FirstSet (plain layer) firsts.now },
}
