// The contours of a sheet: the vertices of one, one with the command that opens it, and all of them in order.
ghost use Rattle.std.specs.Prelude.{◌+◌, ◌≤◌, length};
ghost use Rattle.grid.specs.Plain.{plain};
ghost use Rattle.table.specs.Lent.{Lent, LentAt};
ghost use Rattle.sheet.specs.Written.{contour_vertices, contour_bytes, all_contours};
ghost use Rattle.sheet.specs.Stored.{Stored};

use super::bytes::{put_bytes, put_vertex};
use super::command::{CONTOUR_BYTES, contour_command};
use contour::{ContourSet, firsts_of, sticks_of};
use grid::{Edge, Layer};
use table::entry_at;

// Stores the vertices of the contour that starts at `first`, and gives the place after them.
fn put_vertices(layer: Layer, table: &[u16], sheet: &mut [u8], start: usize, first: Edge) -> usize
    requires lent_at { LentAt (plain layer) table.now first }
    requires room { start + length (contour_vertices (plain layer) table.now first) ≤ length sheet.old }
    ensures { Stored sheet.old start (contour_vertices (plain layer.entry) table.now first) sheet.new result }
{
    let mut at = start;
    for e in sticks_of(layer, first) {
        at = put_vertex(sheet, at, entry_at(layer.size, table, e));
    }
    at
}

// Stores a contour: the command that opens it, and its vertices.
fn put_contour(layer: Layer, table: &[u16], sheet: &mut [u8], at: usize, first: Edge) -> usize
    requires lent_at { LentAt (plain layer) table.now first }
    requires room { at + length (contour_bytes (plain layer) table.now first) ≤ length sheet.old }
    ensures { Stored sheet.old at (contour_bytes (plain layer.entry) table.now first) sheet.new result }
{
    put_bytes(sheet, at, &contour_command(first));
    put_vertices(layer, table, sheet, at + CONTOUR_BYTES, first)
}

// Stores all contours, and gives the place after them.
pub fn put_contours(contours: ContourSet, table: &[u16], sheet: &mut [u8], start: usize) -> usize
    requires lent { Lent (plain contours.layer) table.now }
    requires room { start + length (all_contours (plain contours.layer) table.now) ≤ length sheet.old }
    ensures { Stored sheet.old start (all_contours (plain contours.entry.layer) table.now) sheet.new result }
{
    let mut place = start;
    for first in firsts_of(contours) {
        place = put_contour(contours.layer, table, sheet, place, first);
    }
    place
}
