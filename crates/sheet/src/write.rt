// The public call that writes a sheet.
ghost use Rattle.std.specs.Prelude.{◌≡◌, ◌+◌, ◌*◌, ◌≤◌, length};
ghost use Rattle.std.proofs.lemmas.List.Edits.{sets};
ghost use Rattle.grid.specs.Layer.{layer_of, size_of};
ghost use Rattle.grid.specs.Questions.{first_no, Yes};
ghost use Rattle.grid.specs.Plain.{plain};
ghost use Rattle.mask.specs.Counts.{stick_count};
ghost use Rattle.contour.specs.Contours.{contour_count};
ghost use Rattle.table.specs.Lent.{Lent};
ghost use Rattle.held.specs.Questions.{held_questions};
ghost use Rattle.sheet.specs.Written.{sheet_of, outcome, write_of};

use super::bytes::put_bytes;
use super::command::{SIZE_BYTES, size_command};
use super::walk::put_contours;
use bitset::{EdgeSet, WORDS};
use contour::{ContourSet, contours_in};
use grid::{Layer, Refusal, Refused, Size};
use held::ask_held_firsts;
use mask::stick_count;

// "Its length is 6 + 6×contours + 2×vertices".
fn sheet_length(contours: ContourSet) -> usize
    ensures { result ≡ 6 + 6 * contour_count (plain contours.entry.layer) + 2 * stick_count (plain contours.entry.layer) }
{
    6 + 6 * contours_in(contours) + 2 * stick_count(contours.layer)
}

// Stores the sheet of a layer and its table.
fn put_sheet(contours: ContourSet, table: &[u16], sheet: &mut [u8])
    requires lent { Lent (plain contours.layer) table.now }
    requires room { length (sheet_of (plain contours.layer) table.now) ≤ length sheet.old }
    ensures { sheet.new ≡ sets sheet.old 0 (sheet_of (plain contours.entry.layer) table.now) }
{
    put_bytes(sheet, 0, &size_command(contours.layer.size));
    let end = put_contours(contours, table, sheet, SIZE_BYTES);
    put_bytes(sheet, end, b"E");
}

// Writes the sheet of a layer that passed questions 1 to 7, if the output is long enough.
fn write_held(contours: ContourSet, table: &[u16], sheet: &mut [u8]) -> Result<usize, Refused>
    requires { first_no (held_questions (plain contours.layer) table.now) ≡ Yes }
    ensures { outcome result sheet.new ≡ write_of (plain contours.entry.layer) table.now sheet.old }
{
    let length = sheet_length(contours);
    if sheet.len() < length {
        return Err(Refusal::ShortOutput.at(0));
    }
    put_sheet(contours, table, sheet);
    Ok(length)
}

// Writes the sheet of a held layer and answers how long it is. A refusal leaves the output as found, and what lies past the sheet's end
// stays as it was.
pub fn write_sheet(
    w: u16,
    h: u16,
    bitmap: &[u8],
    table: &[u16],
    sheet: &mut [u8],
) -> Result<usize, Refused>
    ensures { outcome result sheet.new ≡ write_of (layer_of (size_of w h) bitmap.now) table.now sheet.old }
{
    let size = Size {
        width: w as usize,
        height: h as usize,
    };
    let mut set: EdgeSet = [0; WORDS];
    ask_held_firsts(size, bitmap, table, &mut set)?;
    let layer = Layer { size, bitmap };
    write_held(
        ContourSet {
            layer,
            firsts: &set,
        },
        table,
        sheet,
    )
}
