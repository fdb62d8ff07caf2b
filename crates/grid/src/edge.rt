// A grid edge and its number.
ghost use Rattle.std.specs.Prelude.{◌≡◌, true, ◌<◌};
ghost use Rattle.grid.specs.Edges.{edge_columns, edge_rows, kind_start, row_start, in_grid, number, edge_count, edge_in, edge_at};
ghost use Rattle.grid.specs.Questions.{Sized};

use super::layer::Size;

#[derive(Clone, Copy, PartialEq, Eq)]
pub struct Edge {
    pub vertical: bool,
    pub column: usize,
    pub row: usize,
}

// How many edges of a kind stand in a row.
pub fn edge_columns(size: Size, vertical: bool) -> usize
    requires { Sized size }
    ensures { result ≡ edge_columns size vertical }
{
    if vertical { size.width } else { size.width - 1 }
}

// In how many rows edges of a kind stand.
pub fn edge_rows(size: Size, vertical: bool) -> usize
    requires { Sized size }
    ensures { result ≡ edge_rows size vertical }
{
    if vertical {
        size.height - 1
    } else {
        size.height
    }
}

// The lowest number of a kind.
pub fn kind_start(size: Size, vertical: bool) -> usize
    requires { Sized size }
    ensures { result ≡ kind_start size vertical }
{
    if vertical {
        size.height * (size.width - 1)
    } else {
        0
    }
}

// The number of the first edge of a row of a kind.
pub fn row_start(size: Size, vertical: bool, row: usize) -> usize
    requires sized { Sized size }
    requires row_bound { row < edge_rows size vertical }
    ensures { result ≡ row_start size vertical row }
{
    kind_start(size, vertical) + row * edge_columns(size, vertical)
}

// How many edges there are.
pub fn edge_count(size: Size) -> usize
    requires { Sized size }
    ensures { result ≡ edge_count size }
{
    (size.width - 1) * size.height + size.width * (size.height - 1)
}

pub fn number_of(size: Size, e: Edge) -> usize
    requires sized { Sized size }
    requires within { in_grid size e ≡ true }
    ensures { result ≡ number size e }
{
    kind_start(size, e.vertical) + (e.row * edge_columns(size, e.vertical) + e.column)
}

// Edge k of a kind, counted row by row.
pub fn edge_in(size: Size, vertical: bool, k: usize) -> Edge
    requires { Sized size }
    ensures { result ≡ edge_in size vertical k }
{
    let columns = edge_columns(size, vertical);
    Edge {
        vertical,
        column: k % columns,
        row: k / columns,
    }
}

// The edge of a number.
pub fn edge_at(size: Size, n: usize) -> Edge
    requires { Sized size }
    ensures { result ≡ edge_at size n }
{
    let horizontal = kind_start(size, true);
    if n < horizontal {
        edge_in(size, false, n)
    } else {
        edge_in(size, true, n - horizontal)
    }
}
