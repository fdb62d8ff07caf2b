// Question 8 of a sheet: the expected commands, asked for one after the other.
ghost use Rattle.std.specs.Prelude.{◌≡◌, [], ◌∷◌, map, ◌≤◌, length};
ghost use Rattle.grid.specs.Plain.{plain};
ghost use Rattle.contour.specs.Contours.{contour_of, first_sticks};
ghost use Rattle.sheet.specs.Commands.{end_command};
ghost use Rattle.formed.specs.Expected.{these, vertex_of, expected_contour, commands_from, sheet_answer};
ghost use Rattle.formed.specs.Asked.{expected_from, ContourAsked, CommandsAsked};

use super::command::{has_contour, has_size, has_vertex};
use contour::{ContourSet, firsts_of, sticks_of};
use grid::{Answer, Edge, Layer, Refusal, Refused};
use sheet::{CONTOUR_BYTES, SIZE_BYTES, VERTEX_BYTES};

// The vertices of the contour that starts at `first`: the place after them, or else a no at the first that does not stand.
fn walk_vertices(layer: Layer, sheet: &[u8], i: usize, first: Edge) -> Result<usize, Refused>
    requires { ContourAsked (plain layer) sheet.now first i }
    ensures { CommandsAsked sheet.now i (map vertex_of (contour_of (plain layer.entry) first)) result }
{
    let mut place = i;
    for _ in sticks_of(layer, first) {
        if !has_vertex(sheet, place) {
            return Err(Refusal::Malformed.at(place));
        }
        place += VERTEX_BYTES;
    }
    Ok(place)
}

// The command that begins the contour of `first`, and its vertices: the place after them, or else a no at the first command that does not
// stand.
fn walk_contour(layer: Layer, sheet: &[u8], i: usize, first: Edge) -> Result<usize, Refused>
    requires { ContourAsked (plain layer) sheet.now first i }
    ensures { CommandsAsked sheet.now i (expected_contour (plain layer.entry) first) result }
{
    if !has_contour(sheet, i, first) {
        return Err(Refusal::Malformed.at(i));
    }
    walk_vertices(layer, sheet, i + CONTOUR_BYTES, first)
}

// E, and nothing after it.
fn ask_end(sheet: &[u8], i: usize) -> Answer
    requires { i ≤ length sheet.now }
    ensures { result ≡ commands_from sheet.now i (these end_command ∷ []) }
{
    match &sheet[i..] {
        [b'E'] => Ok(()),
        [b'E', ..] => Err(Refusal::Malformed.at(i + 1)),
        _ => Err(Refusal::Malformed.at(i)),
    }
}

// The contours in order, and the end.
fn ask_contours(contours: ContourSet, sheet: &[u8]) -> Answer
    requires { 5 ≤ length sheet.now }
    ensures { result ≡ commands_from sheet.now 5 (expected_from (plain contours.entry.layer) (first_sticks (plain contours.entry.layer))) }
{
    let mut place = SIZE_BYTES;
    for first in firsts_of(contours) {
        place = walk_contour(contours.layer, sheet, place, first)?;
    }
    ask_end(sheet, place)
}

// Question 8.
pub fn ask_sheet(contours: ContourSet, sheet: &[u8]) -> Answer
    ensures { result ≡ sheet_answer (plain contours.entry.layer) sheet.now }
{
    if !has_size(sheet, contours.layer.size) {
        return Err(Refusal::Malformed.at(0));
    }
    ask_contours(contours, sheet)
}
