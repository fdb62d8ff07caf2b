// The public call: questions 1 to 7 and 14, and the items of all contours.
ghost use Rattle.std.specs.Prelude.{◌≡◌};
ghost use Rattle.grid.specs.Layer.{layer_of, size_of};
ghost use Rattle.grid.specs.Plain.{plain};
ghost use Rattle.held.specs.Questions.{Accepted};
ghost use Rattle.planner.specs.Plan.{outcome, plan_of};
ghost use Rattle.planner.specs.Writing.{accepted_of};

use super::listing::write_list;
use bitset::{EdgeSet, WORDS};
use contour::{ContourSet, contours_in};
use grid::{Layer, Refusal, Refused, Size};
use item::Written;
use table::count_kept;

// Question 14, and the list, of a layer that passed 1 to 7.
fn plan_accepted(
    contours: ContourSet,
    table: &[u16],
    items: &mut [u8],
    points: &mut [f64],
) -> Result<Written, Refused>
    requires { Accepted (plain contours.layer) table.now }
    ensures { outcome result items.new points.new ≡ accepted_of (plain contours.entry.layer) table.now items.old points.old }
{
    let kept = count_kept(table);
    let whole = Written {
        items: kept + contours_in(contours),
        floats: 2 * kept,
    };
    if items.len() < whole.items || points.len() < whole.floats {
        return Err(Refusal::ShortOutput.at(0));
    }
    write_list(contours, table, items, points);
    Ok(whole)
}

// Writes the planner's list, and answers how many items and floats that are. A refusal leaves both outputs as found.
pub fn plan(
    w: u16,
    h: u16,
    bitmap: &[u8],
    table: &[u16],
    items: &mut [u8],
    points: &mut [f64],
) -> Result<Written, Refused>
    ensures { outcome result items.new points.new ≡ plan_of (layer_of (size_of w h) bitmap.now) table.now items.old points.old }
{
    let size = Size {
        width: w as usize,
        height: h as usize,
    };
    let mut set: EdgeSet = [0; WORDS];
    held::ask_held_firsts(size, bitmap, table, &mut set)?;
    let layer = Layer { size, bitmap };
    plan_accepted(
        ContourSet {
            layer,
            firsts: &set,
        },
        table,
        items,
        points,
    )
}
