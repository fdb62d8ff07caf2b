// The stick by which a cell is left that is entered by a stick, with inside on the left, as a contour is walked, or on the right, as it is
// walked back. The two corners at that stick are known from the direction, and the two across the cell are asked. Each case looks up the
// cell's own pattern, written as its corners ne, nw, se and sw: a constant, so that the compiler folds the look.
ghost use Rattle.std.specs.Prelude.{◌≡◌, ◌<◌};
ghost use Rattle.grid.specs.Plain.{plain};
ghost use Rattle.step.specs.Cells.{linked_in, edge_on};
ghost use Rattle.step.specs.Turns.{Entered, leaving};
ghost use Rattle.step.specs.declared.cell.Side.TheVariants.{South, East, North, West};

use super::cell::{CellSide, Side, edge_of, linked_in};
use grid::{Edge, Layer};

// The edge that is linked to a side of a cell with this pattern.
fn leave(column: usize, row: usize, pattern: usize, side: Side) -> Edge
    requires column_bound { column < 1024 }
    requires row_bound { row < 1024 }
    requires pattern_bound { pattern < 16 }
    ensures { result ≡ edge_on column row (linked_in pattern side) }
{
    edge_of(CellSide {
        column,
        row,
        side: linked_in(pattern, side),
    })
}

// To the north: sw is on the left, se on the right.
pub fn from_south(layer: Layer, column: usize, row: usize, left: bool) -> Edge
    requires { Entered (plain layer) column row South left }
    ensures { result ≡ leaving (plain layer.entry) column row South }
{
    let nw = layer.is_inside(column, row + 1);
    let ne = layer.is_inside(column + 1, row + 1);
    if left {
        if nw {
            if ne {
                return leave(column, row, 0b1101, Side::South);
            }
            return leave(column, row, 0b0101, Side::South);
        }
        if ne {
            return leave(column, row, 0b1001, Side::South);
        }
        return leave(column, row, 0b0001, Side::South);
    }
    if nw {
        if ne {
            return leave(column, row, 0b1110, Side::South);
        }
        return leave(column, row, 0b0110, Side::South);
    }
    if ne {
        return leave(column, row, 0b1010, Side::South);
    }
    leave(column, row, 0b0010, Side::South)
}

// To the west: se is on the left, ne on the right.
pub fn from_east(layer: Layer, column: usize, row: usize, left: bool) -> Edge
    requires { Entered (plain layer) column row East left }
    ensures { result ≡ leaving (plain layer.entry) column row East }
{
    let sw = layer.is_inside(column, row);
    let nw = layer.is_inside(column, row + 1);
    if left {
        if sw {
            if nw {
                return leave(column, row, 0b0111, Side::East);
            }
            return leave(column, row, 0b0011, Side::East);
        }
        if nw {
            return leave(column, row, 0b0110, Side::East);
        }
        return leave(column, row, 0b0010, Side::East);
    }
    if sw {
        if nw {
            return leave(column, row, 0b1101, Side::East);
        }
        return leave(column, row, 0b1001, Side::East);
    }
    if nw {
        return leave(column, row, 0b1100, Side::East);
    }
    leave(column, row, 0b1000, Side::East)
}

// To the south: ne is on the left, nw on the right.
pub fn from_north(layer: Layer, column: usize, row: usize, left: bool) -> Edge
    requires { Entered (plain layer) column row North left }
    ensures { result ≡ leaving (plain layer.entry) column row North }
{
    let sw = layer.is_inside(column, row);
    let se = layer.is_inside(column + 1, row);
    if left {
        if sw {
            if se {
                return leave(column, row, 0b1011, Side::North);
            }
            return leave(column, row, 0b1001, Side::North);
        }
        if se {
            return leave(column, row, 0b1010, Side::North);
        }
        return leave(column, row, 0b1000, Side::North);
    }
    if sw {
        if se {
            return leave(column, row, 0b0111, Side::North);
        }
        return leave(column, row, 0b0101, Side::North);
    }
    if se {
        return leave(column, row, 0b0110, Side::North);
    }
    leave(column, row, 0b0100, Side::North)
}

// To the east: nw is on the left, sw on the right.
pub fn from_west(layer: Layer, column: usize, row: usize, left: bool) -> Edge
    requires { Entered (plain layer) column row West left }
    ensures { result ≡ leaving (plain layer.entry) column row West }
{
    let se = layer.is_inside(column + 1, row);
    let ne = layer.is_inside(column + 1, row + 1);
    if left {
        if se {
            if ne {
                return leave(column, row, 0b1110, Side::West);
            }
            return leave(column, row, 0b0110, Side::West);
        }
        if ne {
            return leave(column, row, 0b1100, Side::West);
        }
        return leave(column, row, 0b0100, Side::West);
    }
    if se {
        if ne {
            return leave(column, row, 0b1011, Side::West);
        }
        return leave(column, row, 0b0011, Side::West);
    }
    if ne {
        return leave(column, row, 0b1001, Side::West);
    }
    leave(column, row, 0b0001, Side::West)
}
