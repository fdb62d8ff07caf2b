// The public call that measures a held layer: the area of each contour, and the sum after each drawn edge.
ghost use Rattle.std.specs.Prelude.{◌≡◌};
ghost use Rattle.grid.specs.Layer.{layer_of, size_of};
ghost use Rattle.grid.specs.Questions.{first_no, Yes};
ghost use Rattle.grid.specs.Plain.{plain};
ghost use Rattle.held.specs.Questions.{held_questions};
ghost use Rattle.area.specs.Call.{outcome, measure_of};

use super::contours::put_areas;
use bitset::{EdgeSet, WORDS};
use contour::{ContourSet, contours_in};
use grid::{Layer, Refusal, Refused, Size};
use shoelace::put_sums;
use table::count_kept;

// The number of contours and of drawn edges, and what these add up to.
#[derive(Clone, Copy)]
pub struct Measures {
    pub contours: usize,
    pub edges: usize,
    pub total: i64,
}

// Question 14, and the areas and sums, of a layer that passed 1 to 7.
fn measure_held(
    contours: ContourSet,
    table: &[u16],
    areas: &mut [i64],
    sums: &mut [i64],
) -> Result<Measures, Refused>
    requires { first_no (held_questions (plain contours.layer) table.now) ≡ Yes }
    ensures { outcome result areas.new sums.new ≡ measure_of (plain contours.entry.layer) table.now areas.old sums.old }
{
    let count = contours_in(contours);
    if areas.len() < count {
        return Err(Refusal::ShortOutput.at(0));
    }
    let edges = count_kept(table);
    if sums.len() < edges {
        return Err(Refusal::ShortOutput.at(0));
    }
    put_areas(contours, table, areas);
    let total = put_sums(contours.layer, table, sums);
    Ok(Measures {
        contours: count,
        edges,
        total,
    })
}

// Twice the signed area of each contour of a held layer, the sum after each drawn edge in the order of the number of the stick it starts from, and
// the last of these sums. A refusal leaves the outputs as found, and what lies past the answer's end stays as it was.
pub fn areas(
    w: u16,
    h: u16,
    bitmap: &[u8],
    table: &[u16],
    areas: &mut [i64],
    sums: &mut [i64],
) -> Result<Measures, Refused>
    ensures { outcome result areas.new sums.new ≡ measure_of (layer_of (size_of w h) bitmap.now) table.now areas.old sums.old }
{
    let size = Size {
        width: w as usize,
        height: h as usize,
    };
    let mut firsts: EdgeSet = [0; WORDS];
    held::ask_held_firsts(size, bitmap, table, &mut firsts)?;
    let layer = Layer { size, bitmap };
    measure_held(
        ContourSet {
            layer,
            firsts: &firsts,
        },
        table,
        areas,
        sums,
    )
}
