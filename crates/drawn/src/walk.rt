// The next and the previous kept vertex of a contour, by a walk over the removed ones.
ghost use Rattle.std.specs.Prelude.{◌≡◌, true, false};
ghost use Rattle.grid.specs.Layer.{Layer};
ghost use Rattle.grid.specs.Plain.{plain};
ghost use Rattle.grid.specs.Edges.{is_stick};
ghost use Rattle.grid.specs.Questions.{Sound};
ghost use Rattle.grid.specs.declared.edge.Edge.{Edge};
ghost use Rattle.step.specs.Walk.{next, prev};
ghost use Rattle.contour.specs.Walk.{Laws};
ghost use Rattle.table.specs.Vertices.{removed_at};
ghost use Rattle.table.specs.Lent.{LentAt};
ghost use Rattle.drawn.specs.Neighbours.{gap_after, gap_before, gap_by, next_kept, previous_kept, kept_by, NeighbourFound};
ghost use Rattle.drawn.specs.Ways.{walk_by, forth, back};

use grid::{Edge, Layer};
use step::{next_stick, previous_stick};
use table::{entry_at, is_removed};

// The other end of the drawn edge that starts or ends at a stick, and how many removed sticks lie between.
#[derive(Clone, Copy)]
pub struct EdgeEnd {
    pub stick: Edge,
    pub gap: usize,
}

// A way along a contour. Each has its own instance of the walk: one step for both ways takes twice the time.
trait Way {
    ghost onward: { Layer → Edge → Edge };

    ghost undo: { Layer → Edge → Edge };

    fn step(layer: Layer, e: Edge) -> Edge
        requires { is_stick (plain layer) e ≡ true }
        ensures { result ≡ onward (plain layer.entry) e };

    ghost is_walk: { (L : Layer) → Sound L → Laws (walk_by (onward L) (undo L) L) };
}

struct Forth;

impl Way for Forth {
    ghost onward = { next };

    ghost undo = { prev };

    ghost is_walk = { forth };

    fn step(layer: Layer, e: Edge) -> Edge {
        next_stick(layer, e)
    }
}

struct Back;

impl Way for Back {
    ghost onward = { prev };

    ghost undo = { next };

    ghost is_walk = { back };

    fn step(layer: Layer, e: Edge) -> Edge {
        previous_stick(layer, e)
    }
}

// The kept stick that comes next on a way from e. As e is not removed, the walk ends when it is back at e, if not before.
fn kept_by<W: Way>(layer: Layer, table: &[u16], e: Edge) -> EdgeEnd
    requires lent_at { LentAt (plain layer) table.now e }
    requires not_removed { removed_at (plain layer) table.now e ≡ false }
    ensures { NeighbourFound (plain layer.entry) (kept_by W.onward (plain layer.entry) table.now e) (gap_by W.onward (plain layer.entry) table.now e) result }
{
    let mut at = e;
    let mut gap: usize = 0;
    loop {
        at = W::step(layer, at);
        if !is_removed(entry_at(layer.size, table, at)) {
            break;
        }
        gap += 1; // a removed stick lies between
    }
    EdgeEnd { stick: at, gap }
}

// The next kept stick after e.
pub fn kept_after(layer: Layer, table: &[u16], e: Edge) -> EdgeEnd
    requires lent_at { LentAt (plain layer) table.now e }
    requires not_removed { removed_at (plain layer) table.now e ≡ false }
    ensures { NeighbourFound (plain layer.entry) (next_kept (plain layer.entry) table.now e) (gap_after (plain layer.entry) table.now e) result }
{
    kept_by::<Forth>(layer, table, e)
}

// The kept stick before e.
pub fn kept_before(layer: Layer, table: &[u16], e: Edge) -> EdgeEnd
    requires lent_at { LentAt (plain layer) table.now e }
    requires not_removed { removed_at (plain layer) table.now e ≡ false }
    ensures { NeighbourFound (plain layer.entry) (previous_kept (plain layer.entry) table.now e) (gap_before (plain layer.entry) table.now e) result }
{
    kept_by::<Back>(layer, table, e)
}
