// The two calls that may open a list: the table at exit is `opened` of the table at entry, and an `Ok` says that the opening was accepted.
ghost use Rattle.std.specs.Prelude.{◌≡◌, Ok};
ghost use Rattle.grid.specs.Layer.{layer_of, size_of};
ghost use Rattle.guarantee.specs.Calls.{Bytes, sheet_from, by_trace, by_sheet, OpeningAccepted, opened};

use grid::Answer;

// Opens by Trace.
pub fn open_by_trace(w: u16, h: u16, bitmap: &[u8], table: &mut [u16]) -> Answer
    ensures table_after { table.new ≡ opened (layer_of (size_of w h) bitmap.now) table.old by_trace }
    ensures opening_accepted { result ≡ Ok tt → OpeningAccepted (layer_of (size_of w h) bitmap.now) table.old by_trace }
{
    trace::trace(w, h, bitmap, table)
}

// Opens by reading a sheet.
pub fn open_by_sheet(w: u16, h: u16, bitmap: &[u8], table: &mut [u16], sheet: &[u8]) -> Answer
    ensures table_after { (below : Bytes sheet.now) × (table.new ≡ opened (layer_of (size_of w h) bitmap.now) table.old (by_sheet (sheet_from sheet.now below))) }
    ensures opening_accepted { result ≡ Ok tt → (below : Bytes sheet.now) × OpeningAccepted (layer_of (size_of w h) bitmap.now) table.old (by_sheet (sheet_from sheet.now below)) }
{
    reading::read_sheet(w, h, bitmap, table, sheet)
}
