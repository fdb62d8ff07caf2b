// Whether a run passes.
ghost use Rattle.std.specs.Prelude.{◌≡◌};
ghost use Rattle.grid.specs.Plain.{plain};
ghost use Rattle.chord.specs.Runs.{Near};
ghost use Rattle.table.specs.Lent.{LentAt};
ghost use Rattle.run.specs.Runs.{chord_passes, passes, RunLent};

use chord::{Position, crosses_stick, slides_within};
use drawn::vertex_at;
use grid::{Edge, Layer};
use step::next_stick;
use table::{entry_at, is_pinned, offset_in};

// Whether the chord from p to q crosses the stick u, and the vertex there would slide to it by at most t and is not pinned.
fn chord_passes(layer: Layer, table: &[u16], t: u8, p: Position, q: Position, u: Edge) -> bool
    requires lent_at { LentAt (plain layer) table.now u }
    requires p_near { Near p }
    requires q_near { Near q }
    ensures { result ≡ chord_passes (plain layer.entry) table.now t p q u }
{
    if !crosses_stick(p, q, u) {
        return false;
    }
    let entry = entry_at(layer.size, table, u);
    slides_within(t, p, q, u, offset_in(entry)) && !is_pinned(entry)
}

// Whether the run of n edges from stick e to stick `end` passes. It stops at the first stick that fails.
pub fn passes_run(layer: Layer, table: &[u16], t: u8, e: Edge, end: Edge, n: usize) -> bool
    requires { RunLent (plain layer) table.now e end n }
    ensures { result ≡ passes (plain layer.entry) table.now t e n }
{
    let p = vertex_at(layer.size, table, e);
    let q = vertex_at(layer.size, table, end);
    let mut at = e;
    for _ in 1..n {
        at = next_stick(layer, at);
        if !chord_passes(layer, table, t, p, q, at) {
            return false;
        }
    }
    true
}
