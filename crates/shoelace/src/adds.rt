// What one drawn edge adds to twice the area.
ghost use Rattle.std.specs.Prelude.{◌≡◌, true, ◌^◌, ◌≤◌, nat_abs};
ghost use Rattle.grid.specs.Plain.{plain};
ghost use Rattle.chord.specs.Runs.{Near};
ghost use Rattle.table.specs.Vertices.{kept_at};
ghost use Rattle.drawn.specs.Drawn.{drawn_from};
ghost use Rattle.shoelace.specs.Adds.{cross, edge_adds, HeldStick};

use chord::{Position, signed};
use drawn::{kept_after, vertex_at};
use grid::{Edge, Layer};

// What a drawn edge from p to q adds.
pub fn cross_of(p: Position, q: Position) -> i64
    requires p_near { Near p }
    requires q_near { Near q }
    ensures value { result ≡ cross p q }
    ensures result_bound { nat_abs result ≤ 2 ^ 37 }
{
    signed(p.x) * signed(q.y) - signed(q.x) * signed(p.y)
}

// What the drawn edge that starts at the kept vertex of e adds. Its gap is walked once.
pub fn edge_adds(layer: Layer, table: &[u16], e: Edge) -> i64
    requires held_stick { HeldStick (plain layer) table.now e }
    requires kept { kept_at (plain layer) table.now e ≡ true }
    ensures value { result ≡ edge_adds (plain layer.entry) table.now (drawn_from (plain layer.entry) table.now e) }
    ensures result_bound { nat_abs result ≤ 2 ^ 37 }
{
    let end = kept_after(layer, table, e);
    cross_of(
        vertex_at(layer.size, table, e),
        vertex_at(layer.size, table, end.stick),
    )
}
