// The chord from p to q against one edge: whether it crosses it, and whether a vertex of it slides to the chord within a tolerance.
ghost use Rattle.std.specs.Prelude.{◌≡◌, ◌≤◌};
ghost use Rattle.chord.specs.Crossing.{parted, meeting, total, crosses, slides_within};
ghost use Rattle.chord.specs.Runs.{Near, NearEdge};

use super::position::{Position, across_of, along_of, base_of, line_of, off_line};
use grid::Edge;

// Whether p and q lie strictly on different sides of the edge's line.
#[tactic(auto, unfolding(crate::specs::Crossing::parted))]
fn are_parted(p: Position, q: Position, e: Edge) -> bool
    requires p_near { Near p }
    requires q_near { Near q }
    requires near_edge { NearEdge e }
    ensures { result ≡ parted p q e }
{
    let from = across_of(e, p);
    let to = across_of(e, q);
    let line = line_of(e);
    (from < line && line < to) || (to < line && line < from)
}

fn total_of(p: Position, q: Position, e: Edge) -> usize
    requires p_near { Near p }
    requires q_near { Near q }
    requires near_edge { NearEdge e }
    ensures value { result ≡ total p q e }
    ensures upper_bound { result ≤ 524288 }
{
    off_line(e, q) + off_line(e, p)
}

fn meeting_of(p: Position, q: Position, e: Edge) -> usize
    requires p_near { Near p }
    requires q_near { Near q }
    requires near_edge { NearEdge e }
    ensures value { result ≡ meeting p q e }
    ensures upper_bound { result ≤ 137438953472 }
{
    off_line(e, q) * along_of(e, p) + off_line(e, p) * along_of(e, q)
}

// Whether the chord crosses the edge, strictly between its two samples.
#[tactic(auto, unfolding(crate::specs::Crossing::crosses))]
pub fn crosses_stick(p: Position, q: Position, e: Edge) -> bool
    requires p_near { Near p }
    requires q_near { Near q }
    requires near_edge { NearEdge e }
    ensures { result ≡ crosses p q e }
{
    if !are_parted(p, q, e) {
        return false;
    }
    let whole = total_of(p, q, e);
    let met = meeting_of(p, q, e);
    let base = base_of(e);
    base * whole < met && met < (base + 256) * whole
}

// Whether a vertex at an offset of the edge slides to the chord by at most t.
#[tactic(auto, unfolding(crate::specs::Crossing::slides_within))]
pub fn slides_within(t: u8, p: Position, q: Position, e: Edge, offset: u8) -> bool
    requires p_near { Near p }
    requires q_near { Near q }
    requires near_edge { NearEdge e }
    ensures { result ≡ slides_within t p q e offset }
{
    let whole = total_of(p, q, e);
    let met = meeting_of(p, q, e);
    let old = (base_of(e) + usize::from(offset)) * whole;
    met.abs_diff(old) <= usize::from(t) * whole
}
