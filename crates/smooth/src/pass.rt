// A pass: the step at one vertex, and along one contour.
ghost use Rattle.std.specs.Prelude.{◌≡◌};
ghost use Rattle.grid.specs.Plain.{plain};
ghost use Rattle.smooth.specs.Smooth.{SmoothableAt};
ghost use Rattle.smooth.specs.Visit.{Visitable, Visited, PassMade};

use chord::{Position, position_of};
use drawn::vertex_at;
use grid::{Edge, Layer, number_of};
use offset::new_offset;
use step::{next_stick, previous_stick};
use table::{Entry, has_pin, offset_of};

// What a step gives: the offset after it, and the absolute change.
#[derive(Clone, Copy)]
struct Stepped {
    offset: u8,
    change: usize,
}

// The step at the vertex of stick e, whose entry stands at `at` and whose neighbours are at p and q. A pinned vertex is skipped.
fn visit(table: &mut [u16], at: usize, e: Edge, p: Position, q: Position) -> Stepped
    requires { Visitable table.old at p q e }
    ensures { Visited table.old at p q e result table.new }
{
    let entry = table[at];
    let old = offset_of(entry);
    if has_pin(entry) {
        return Stepped {
            offset: old,
            change: 0,
        };
    }
    let new = new_offset(p, q, e, old);
    table[at] = u16::from(Entry::Kept(new));
    Stepped {
        offset: new,
        change: usize::from(old.abs_diff(new)),
    }
}

// What a pass over a contour gives: the sum of the absolute changes, and how many vertices were visited.
#[derive(Clone, Copy)]
pub struct PassCounts {
    pub total: usize,
    pub vertices: usize,
}

// A pass over the contour that starts at `first`. The previous vertex's position, the stick and the number of its entry go along, so that a vertex
// costs one step of the walk.
pub fn pass_contour(layer: Layer, table: &mut [u16], first: Edge) -> PassCounts
    requires { SmoothableAt (plain layer) table.old first }
    ensures { PassMade (plain layer.entry) table.old first result table.new }
{
    let start = number_of(layer.size, first);
    let mut p = vertex_at(layer.size, table, previous_stick(layer, first));
    let mut e = first;
    let mut at = start;
    let mut total: usize = 0;
    let mut vertices: usize = 0;
    loop {
        let next = next_stick(layer, e);
        let after = number_of(layer.size, next);
        let q = position_of(next, offset_of(table[after]));
        let moved = visit(table, at, e, p, q);
        total += moved.change;
        vertices += 1;
        p = position_of(e, moved.offset);
        e = next;
        at = after;
        if at == start {
            break;
        }
    }
    PassCounts { total, vertices }
}
