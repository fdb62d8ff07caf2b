// Where a vertex lies.
ghost use Rattle.std.specs.Prelude.{◌≡◌, get_or};
ghost use Rattle.grid.specs.Edges.{number};
ghost use Rattle.chord.specs.Points.{position};
ghost use Rattle.chord.specs.Runs.{Near};
ghost use Rattle.table.specs.Entries.{entry_of};
ghost use Rattle.table.specs.Vertices.{offset_in};
ghost use Rattle.table.specs.Lent.{HasEntry};

use chord::{Position, position_of};
use grid::{Edge, Size};
use table::{entry_at, offset_in};

// The vertex of an edge of the grid, at the offset that its entry gives.
pub fn vertex_at(size: Size, table: &[u16], e: Edge) -> Position
    requires { HasEntry size table.now e }
    ensures value { result ≡ position e (offset_in (entry_of (get_or table.now (number size e) 0))) }
    ensures near { Near result }
{
    position_of(e, offset_in(entry_at(size, table, e)))
}
