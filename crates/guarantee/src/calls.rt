// The five calls that write a table, each as one step of the guarantee's list: the table at exit is `after` of the table at entry, whatever the
// call's answer is.
ghost use Rattle.std.specs.Prelude.{◌≡◌};
ghost use Rattle.grid.specs.Layer.{layer_of, size_of};
ghost use Rattle.guarantee.specs.Calls.{Bytes, sheet_from, trace, read, smooth, simplify, roll, after};

use grid::{Answer, Refused};
use roll::RollRefused;
use simplify::RunCounts;
use smooth::Settling;

// Trace.
pub fn call_trace(w: u16, h: u16, bitmap: &[u8], table: &mut [u16]) -> Answer
    ensures { table.new ≡ after (layer_of (size_of w h) bitmap.now) table.old trace }
{
    trace::trace(w, h, bitmap, table)
}

// Reading a sheet. What is lent is a list of bytes, and so a `Sheet`.
pub fn call_read(w: u16, h: u16, bitmap: &[u8], table: &mut [u16], sheet: &[u8]) -> Answer
    ensures { (below : Bytes sheet.now) × (table.new ≡ after (layer_of (size_of w h) bitmap.now) table.old (read (sheet_from sheet.now below))) }
{
    reading::read_sheet(w, h, bitmap, table, sheet)
}

// Smooth, with a pass limit.
pub fn call_smooth(
    w: u16,
    h: u16,
    bitmap: &[u8],
    table: &mut [u16],
    limit: u16,
) -> Result<Settling, Refused>
    ensures { table.new ≡ after (layer_of (size_of w h) bitmap.now) table.old (smooth limit) }
{
    smooth::smooth(w, h, bitmap, table, limit)
}

// Simplify, with a tolerance.
pub fn call_simplify(
    w: u16,
    h: u16,
    bitmap: &[u8],
    table: &mut [u16],
    t: u8,
) -> Result<RunCounts, Refused>
    ensures { table.new ≡ after (layer_of (size_of w h) bitmap.now) table.old (simplify t) }
{
    simplify::simplify(w, h, bitmap, table, t)
}

// Roll, with its commands and a tolerance.
pub fn call_roll(
    w: u16,
    h: u16,
    bitmap: &[u8],
    table: &mut [u16],
    commands: &[u8],
    t: u8,
) -> Result<usize, RollRefused>
    ensures { table.new ≡ after (layer_of (size_of w h) bitmap.now) table.old (roll commands.now t) }
{
    roll::roll(w, h, bitmap, table, commands, t)
}
