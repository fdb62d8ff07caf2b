// The table of the layer that a sheet describes, where the sheet passed 8: 0 everywhere, then each stick's entry from its command.
ghost use Rattle.std.specs.Prelude.{◌≡◌, ◌+◌, ◌*◌, ◌≤◌, length};
ghost use Rattle.grid.specs.Edges.{edge_count};
ghost use Rattle.grid.specs.Questions.{Yes};
ghost use Rattle.grid.specs.Plain.{plain};
ghost use Rattle.contour.specs.Contours.{contour_of};
ghost use Rattle.table.specs.Lent.{LentAt};
ghost use Rattle.formed.specs.Expected.{sheet_answer};
ghost use Rattle.reading.specs.Reading.{entry_from, no_entries, described};
ghost use Rattle.reading.specs.Places.{reading_at, store_contour};

use contour::{ContourSet, firsts_of, sticks_of};
use grid::{Edge, Layer};
use sheet::{CONTOUR_BYTES, SIZE_BYTES, VERTEX_BYTES};
use table::{Entry, store};

// The entry that the vertex command at i gives its stick.
pub fn entry_from(sheet: &[u8], i: usize) -> Entry
    requires { i + 2 ≤ length sheet.now }
    ensures { result ≡ entry_from sheet.now i }
{
    let letter = sheet[i];
    let offset = sheet[i + 1];
    match letter {
        b'R' => Entry::Removed(offset),
        b'N' => Entry::Pinned(offset),
        _ => Entry::Kept(offset),
    }
}

// Stores the vertices of the contour that starts at `first`, which stand from i on, and gives the place after them.
fn store_vertices(layer: Layer, table: &mut [u16], sheet: &[u8], i: usize, first: Edge) -> usize
    requires lent_at { LentAt (plain layer) table.old first }
    requires room { i + 2 * length (contour_of (plain layer) first) ≤ length sheet.now }
    ensures { reading_at result table.new ≡ store_contour (plain layer.entry) sheet.now first (reading_at i table.old) }
{
    let mut place = i;
    for e in sticks_of(layer, first) {
        store(layer.size, table, e, entry_from(sheet, place));
        place += VERTEX_BYTES;
    }
    place
}

// Stores the vertices of all contours.
fn store_contours(contours: ContourSet, table: &mut [u16], sheet: &[u8])
    requires formed { sheet_answer (plain contours.layer) sheet.now ≡ Yes }
    requires empty { table.old ≡ no_entries (plain contours.layer) }
    ensures { table.new ≡ described (plain contours.entry.layer) sheet.now }
{
    let mut place = SIZE_BYTES;
    for first in firsts_of(contours) {
        place = store_vertices(contours.layer, table, sheet, place + CONTOUR_BYTES, first);
    }
}

// Writes the table that the sheet describes.
pub fn fill_table(contours: ContourSet, table: &mut [u16], sheet: &[u8])
    requires formed { sheet_answer (plain contours.layer) sheet.now ≡ Yes }
    requires table_len { length table.old ≡ edge_count contours.layer.size }
    ensures { table.new ≡ described (plain contours.entry.layer) sheet.now }
{
    table.fill(0);
    store_contours(contours, table, sheet);
}
