// The stick that an edit names, question 9: it lies in the grid and carries a kept vertex, and what 16 asks: whether that is pinned.
ghost use Rattle.std.specs.Prelude.{◌≡◌};
ghost use Rattle.grid.specs.Edges.{in_grid};
ghost use Rattle.grid.specs.Questions.{Sized};
ghost use Rattle.table.specs.Lent.{HasEntry};
ghost use Rattle.edit.specs.Edits.{edge_named};
ghost use Rattle.edit.specs.Chords.{names_kept, names_pinned, Exact};

use grid::{Edge, Size, edge_columns, edge_rows};
use table::{entry_at, is_kept, is_pinned};

// A stick as a command names it; it may lie outside the grid.
#[derive(Clone, Copy)]
pub struct Named {
    pub kind: u8,
    pub column: usize,
    pub row: usize,
}

pub fn edge_named(stick: Named) -> Edge
    ensures { result ≡ edge_named stick }
{
    Edge {
        vertical: stick.kind == 1,
        column: stick.column,
        row: stick.row,
    }
}

fn in_grid(size: Size, e: Edge) -> bool
    requires { Sized size }
    ensures { result ≡ in_grid size e }
{
    e.column < edge_columns(size, e.vertical) && e.row < edge_rows(size, e.vertical)
}

// Question 9.
pub fn carries_kept(size: Size, table: &[u16], stick: Named) -> bool
    requires { Exact size table.now }
    ensures { result ≡ names_kept size table.now stick }
{
    if stick.kind > 1 {
        return false;
    }
    let e = edge_named(stick);
    in_grid(size, e) && is_kept(entry_at(size, table, e))
}

// Whether question 16, put after a yes to 9, is answered no: the vertex is pinned.
pub fn carries_pin(size: Size, table: &[u16], stick: Named) -> bool
    requires { HasEntry size table.now (edge_named stick) }
    ensures { result ≡ names_pinned size table.now stick }
{
    is_pinned(entry_at(size, table, edge_named(stick)))
}
