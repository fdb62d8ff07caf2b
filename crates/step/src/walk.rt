// The step from a stick to the next one on its contour, and back.
ghost use Rattle.std.specs.Prelude.{◌≡◌, true};
ghost use Rattle.grid.specs.Edges.{is_stick};
ghost use Rattle.step.specs.Walk.{upward, next, prev};
ghost use Rattle.grid.specs.Plain.{plain};

use super::turn::{from_east, from_north, from_south, from_west};
use grid::{Edge, Layer};

// Whether the contour crosses the stick to the north or to the east.
fn is_upward(layer: Layer, e: Edge) -> bool
    requires stick { is_stick (plain layer) e ≡ true }
    ensures { result ≡ upward (plain layer.entry) e }
{
    let inside = layer.is_inside(e.column, e.row);
    if e.vertical { !inside } else { inside }
}

// The successor of a stick on its contour: where the contour leaves the cell ahead.
pub fn next_stick(layer: Layer, e: Edge) -> Edge
    requires stick { is_stick (plain layer) e ≡ true }
    ensures { result ≡ next (plain layer.entry) e }
{
    let upper = is_upward(layer, e);
    let column = e.column;
    let row = e.row;
    if e.vertical {
        if upper {
            from_west(layer, column, row, true)
        } else {
            from_east(layer, column - 1, row, true)
        }
    } else {
        if upper {
            from_south(layer, column, row, true)
        } else {
            from_north(layer, column, row - 1, true)
        }
    }
}

// The predecessor of a stick on its contour: where the contour walked back leaves the cell behind.
pub fn previous_stick(layer: Layer, e: Edge) -> Edge
    requires stick { is_stick (plain layer) e ≡ true }
    ensures { result ≡ prev (plain layer.entry) e }
{
    let upper = is_upward(layer, e);
    let column = e.column;
    let row = e.row;
    if e.vertical {
        if upper {
            from_east(layer, column - 1, row, false)
        } else {
            from_west(layer, column, row, false)
        }
    } else {
        if upper {
            from_north(layer, column, row - 1, false)
        } else {
            from_south(layer, column, row, false)
        }
    }
}
