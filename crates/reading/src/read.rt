// The public call that reads a sheet.
ghost use Rattle.std.specs.Prelude.{◌≡◌};
ghost use Rattle.grid.specs.Layer.{layer_of, size_of};
ghost use Rattle.grid.specs.Questions.{first_no};
ghost use Rattle.grid.specs.Plain.{plain};
ghost use Rattle.table.specs.Lent.{Lent};
ghost use Rattle.reading.specs.Reading.{outcome, read_of};
ghost use Rattle.reading.specs.Places.{sheet_questions, answered};

use super::fill::fill_table;
use super::holding::ask_described;
use bitset::{EdgeSet, WORDS};
use contour::{ContourSet, first_sticks};
use formed::ask_sheet;
use grid::{Answer, Layer, Refused, Size};
use table::ask_lengths;

// Questions 8 and 7.
fn ask_both(contours: ContourSet, sheet: &[u8]) -> Answer
    ensures { result ≡ first_no (sheet_questions (plain contours.entry.layer) sheet.now) }
{
    ask_sheet(contours, sheet)?;
    ask_described(contours, sheet)
}

// Reads a sheet against a layer that passed 1 to 5.
fn read_against(layer: Layer, table: &mut [u16], sheet: &[u8]) -> Result<(), Refused>
    requires { Lent (plain layer) table.old }
    ensures { outcome result table.new ≡ answered (plain layer.entry) table.old sheet.now }
{
    let mut set: EdgeSet = [0; WORDS];
    first_sticks(layer, &mut set);
    let contours = ContourSet {
        layer,
        firsts: &set,
    };
    ask_both(contours, sheet)?;
    fill_table(contours, table, sheet);
    Ok(())
}

// Writes the table of the layer that the sheet describes. A refusal leaves the table as found, and nothing of it but its length is looked at.
pub fn read_sheet(
    w: u16,
    h: u16,
    bitmap: &[u8],
    table: &mut [u16],
    sheet: &[u8],
) -> Result<(), Refused>
    ensures { outcome result table.new ≡ read_of (layer_of (size_of w h) bitmap.now) table.old sheet.now }
{
    let size = Size {
        width: w as usize,
        height: h as usize,
    };
    ask_lengths(size, bitmap, table.len())?;
    read_against(Layer { size, bitmap }, table, sheet)
}
