// How many contours a layer has, from the set of its first sticks or from nothing.
ghost use Rattle.std.specs.Prelude.{◌≡◌, ◌≤◌};
ghost use Rattle.grid.specs.Plain.{plain};
ghost use Rattle.bitset.specs.Sets.{set_bits};
ghost use Rattle.contour.specs.Contours.{contour_count};

use super::scan::first_sticks;
use super::set::ContourSet;
use bitset::{EdgeSet, WORDS, member_count};
use grid::{Layer, kind_start};

// All first sticks are horizontal.
pub fn contours_in(contours: ContourSet) -> usize
    ensures value { result ≡ contour_count (plain contours.entry.layer) }
    ensures upper_bound { result ≤ set_bits }
{
    member_count(contours.firsts, kind_start(contours.layer.size, true))
}

pub fn count_contours(layer: Layer) -> usize
    ensures { result ≡ contour_count (plain layer.entry) }
{
    let mut set: EdgeSet = [0; WORDS];
    first_sticks(layer, &mut set);
    contours_in(ContourSet {
        layer,
        firsts: &set,
    })
}
