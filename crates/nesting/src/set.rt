// The contours of a layer, with the set of the horizontal sticks that lie on bores.
ghost use Rattle.grid.specs.Plain.{plain};
ghost use Rattle.nesting.specs.Bores.{BoreSet};

use bitset::EdgeSet;
use contour::ContourSet;

// A layer with the set of its first sticks and that of the sticks on its bores: what tells how its contours lie within each other.
#[derive(Clone, Copy)]
pub struct Nesting<'l, 's, 'b> {
    pub contours: ContourSet<'l, 's>,
    pub bores: &'b EdgeSet,
    pub ghost bore_set: { BoreSet (plain contours.layer) bores.now },
}
