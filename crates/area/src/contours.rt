// Twice the signed area of every contour, in contour order.
ghost use Rattle.std.specs.Prelude.{◌≡◌, ◌≤◌, length};
ghost use Rattle.std.proofs.lemmas.List.Edits.{sets};
ghost use Rattle.grid.specs.Plain.{plain};
ghost use Rattle.held.specs.Questions.{Accepted};
ghost use Rattle.area.specs.Areas.{areas_of};

use super::walk::contour_area;
use contour::{ContourSet, firsts_of};

// Stores the areas of the contours.
pub fn put_areas(contours: ContourSet, table: &[u16], areas: &mut [i64])
    requires accepted { Accepted (plain contours.layer) table.now }
    requires room { length (areas_of (plain contours.layer) table.now) ≤ length areas.old }
    ensures { areas.new ≡ sets areas.old 0 (areas_of (plain contours.entry.layer) table.now) }
{
    for (place, first) in firsts_of(contours).enumerate() {
        areas[place] = contour_area(contours.layer, table, first);
    }
}
