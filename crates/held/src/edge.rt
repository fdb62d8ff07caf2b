// The drawn edge that starts at a kept vertex, against the removed sticks between its ends.
ghost use Rattle.std.specs.Prelude.{◌≡◌, true};
ghost use Rattle.grid.specs.Plain.{plain};
ghost use Rattle.table.specs.Vertices.{kept_at};
ghost use Rattle.table.specs.Lent.{LentAt};
ghost use Rattle.drawn.specs.Drawn.{edge_crosses};

use chord::crosses_run;
use drawn::{kept_after, vertex_at};
use grid::{Edge, Layer};

// Whether the drawn edge that starts at the kept vertex of stick e crosses every removed stick up to its end.
pub fn held_at(layer: Layer, table: &[u16], e: Edge) -> bool
    requires lent_at { LentAt (plain layer) table.now e }
    requires kept { kept_at (plain layer) table.now e ≡ true }
    ensures { result ≡ edge_crosses (plain layer.entry) table.now e }
{
    let end = kept_after(layer, table, e);
    let p = vertex_at(layer.size, table, e);
    let q = vertex_at(layer.size, table, end.stick);
    crosses_run(layer, p, q, e, end.gap)
}
