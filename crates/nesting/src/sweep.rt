// A sweep along a row, from stick to stick, that counts the contours around each sample: over a stick of an outline one more is around on its
// inside, over a stick of a bore one more on its outside.
ghost use Rattle.std.specs.Prelude.{◌≡◌, true, ◌+◌, ◌*◌, ◌/◌, min, ◌<◌};
ghost use Rattle.grid.specs.Plain.{plain};
ghost use Rattle.grid.specs.Edges.{is_stick};
ghost use Rattle.winding.specs.Turns.{contours_around};
ghost use Rattle.nesting.specs.Sweeps.{Counted, Swept, SweptAt, sweep_at};

use super::set::Nesting;
use bitset::{contains, ones_of};
use grid::Edge;
use mask::stick_byte;

// Where a sweep stands, and how many contours are around the sample there.
#[derive(Clone, Copy)]
pub struct Sweep {
    pub row: usize,
    pub column: usize,
    pub around: usize,
}

// How many contours are around the sample east of the stick at which the sweep stands.
fn crossed(nesting: Nesting, at: Sweep) -> usize
    requires { SweptAt (plain nesting.contours.layer) at }
    ensures { result ≡ contours_around (plain nesting.entry.contours.layer) (at.column + 1) at.row }
{
    let layer = nesting.contours.layer;
    let bore = contains(nesting.bores, at.row * (layer.size.width - 1) + at.column);
    if layer.is_inside(at.column, at.row) == bore {
        at.around + 1
    } else {
        at.around - 1
    }
}

// How many contours are around the sample at the end of the byte that holds the sweep's column, or at `end` if that comes first: from stick to
// stick, so a byte without one costs nothing more.
fn over_byte(nesting: Nesting, from: Sweep, end: usize) -> usize
    requires swept { Swept (plain nesting.contours.layer) from end }
    requires column_lt_end { from.column < end }
    ensures { result ≡ contours_around (plain nesting.entry.contours.layer) (min (8 * (from.column / 8) + 8) end) from.row }
{
    let byte = stick_byte(nesting.contours.layer, false, from.column / 8, from.row);
    let mut around = from.around;
    for b in ones_of(u64::from(byte) >> (from.column % 8)) {
        let column = from.column + b;
        if column >= end {
            return around;
        }
        let at = Sweep {
            row: from.row,
            column,
            around,
        };
        around = crossed(nesting, at);
    }
    around
}

// How many contours are around the sample at column `end` of the sweep's row.
fn around_at(nesting: Nesting, from: Sweep, end: usize) -> usize
    requires { Swept (plain nesting.contours.layer) from end }
    ensures { result ≡ contours_around (plain nesting.entry.contours.layer) end from.row }
{
    let mut at = from;
    while at.column < end {
        at.around = over_byte(nesting, at, end);
        at.column = (8 * (at.column / 8) + 8).min(end);
    }
    at.around
}

// The sweep at the west end of a stick. In the same row it goes on from where it stands, in another it begins at the border, which no contour
// is around.
pub fn sweep_to(nesting: Nesting, at: Sweep, stick: Edge) -> Sweep
    requires counted { Counted (plain nesting.contours.layer) at }
    requires stick { is_stick (plain nesting.contours.layer) stick ≡ true }
    ensures { result ≡ sweep_at (plain nesting.entry.contours.layer) stick }
{
    let from = if at.row == stick.row && at.column <= stick.column {
        at
    } else {
        Sweep {
            row: stick.row,
            column: 0,
            around: 0,
        }
    };
    Sweep {
        row: stick.row,
        column: stick.column,
        around: around_at(nesting, from, stick.column),
    }
}
