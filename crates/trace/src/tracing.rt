// The public call Trace.
ghost use Rattle.std.specs.Prelude.{◌≡◌};
ghost use Rattle.grid.specs.Layer.{layer_of, size_of};
ghost use Rattle.trace.specs.Trace.{outcome, trace_of};

use super::fill::fill_table;
use grid::{Layer, Refused, Size};

// Makes every stick kept at 128, and every other entry 0. A refusal leaves the table as found.
pub fn trace(w: u16, h: u16, bitmap: &[u8], table: &mut [u16]) -> Result<(), Refused>
    ensures { outcome result table.new ≡ trace_of (layer_of (size_of w h) bitmap.now) table.old }
{
    let size = Size {
        width: w as usize,
        height: h as usize,
    };
    table::ask_lengths(size, bitmap, table.len())?;
    fill_table(Layer { size, bitmap }, table);
    Ok(())
}
