// The smoothing of one contour, and of all contours, one after the other.
ghost use Rattle.std.specs.Prelude.{◌≡◌, ◌≤◌};
ghost use Rattle.grid.specs.Plain.{plain};
ghost use Rattle.smooth.specs.Smooth.{is_settled, most_vertices, most_total, smooth_contour, smooth, Smoothable, SmoothableAt};
ghost use Rattle.smooth.specs.Visit.{reached};

use super::pass::pass_contour;
use contour::{ContourSet, firsts_of};
use grid::{Edge, Layer};

// The passes made, the total of the last one and whether smoothing is settled. Of several contours: the largest number of passes, the sum of the last
// totals and whether all are settled.
#[derive(Clone, Copy)]
pub struct Settling {
    pub passes: usize,
    pub total: usize,
    pub settled: bool,
}

// Whether a contour is settled after a pass with this total.
fn is_settled(total: usize, vertices: usize) -> bool
    requires total_le_most_total { total ≤ most_total }
    requires vertices_le_most_vertices { vertices ≤ most_vertices }
    ensures { result ≡ is_settled total vertices }
{
    1000 * total < 256 * vertices
}

// Passes over the contour that starts at `first` until it is settled, or the limit is reached.
fn smooth_contour(layer: Layer, table: &mut [u16], first: Edge, limit: u16) -> Settling
    requires { SmoothableAt (plain layer) table.old first }
    ensures { reached result table.new ≡ smooth_contour (plain layer.entry) limit table.old first }
{
    let most = usize::from(limit);
    let mut total: usize = 0;
    for passes in 1..=most {
        let made = pass_contour(layer, table, first);
        total = made.total;
        if is_settled(made.total, made.vertices) {
            return Settling {
                passes,
                total,
                settled: true,
            };
        }
    }
    Settling {
        passes: most,
        total,
        settled: false,
    }
}

// Smooths every contour to its end before the next.
pub fn smooth_contours(contours: ContourSet, table: &mut [u16], limit: u16) -> Settling
    requires { Smoothable (plain contours.layer) table.old }
    ensures { reached result table.new ≡ smooth (plain contours.entry.layer) limit table.old }
{
    let mut passes: usize = 0;
    let mut total: usize = 0;
    let mut settled = true;
    for first in firsts_of(contours) {
        let one = smooth_contour(contours.layer, table, first, limit);
        passes = passes.max(one.passes);
        total += one.total;
        settled &= one.settled;
    }
    Settling {
        passes,
        total,
        settled,
    }
}
