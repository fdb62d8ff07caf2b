// Question 7 of the layer that a sheet describes, where the sheet passed 8. It is answered from the sheet's bytes, so that no table is written
// before all is accepted: the vertices of a contour stand one after the other, and at each kept one the drawn edge that starts there is tested.
ghost use Rattle.std.specs.Prelude.{◌≡◌, true, false, cond, ◌+◌, ◌^◌, ◌≤◌, ◌<◌, length, get_or};
ghost use Rattle.grid.specs.Questions.{Yes};
ghost use Rattle.grid.specs.Plain.{plain};
ghost use Rattle.chord.specs.Points.{position};
ghost use Rattle.chord.specs.Runs.{Near, NearEdge};
ghost use Rattle.table.specs.Vertices.{kept_at, removed_at};
ghost use Rattle.drawn.specs.Drawn.{edge_crosses};
ghost use Rattle.held.specs.Held.{held_answer};
ghost use Rattle.formed.specs.Expected.{sheet_answer};
ghost use Rattle.reading.specs.Reading.{described};
ghost use Rattle.reading.specs.Places.{VertexExpected, VertexAfter, VerticesStand, EndsAt, ContourChecked};

use chord::{Position, crosses_run, position_of};
use contour::{ContourSet, firsts_of, sticks_of};
use grid::{Answer, Edge, Layer, Refusal, number_of};
use sheet::{CONTOUR_BYTES, SIZE_BYTES, VERTEX_BYTES};
use step::next_stick;

// A stick, and the place of its vertex in the sheet.
#[derive(Clone, Copy)]
pub struct Vertex {
    pub stick: Edge,
    pub place: usize,
}

// The vertex after v, on the contour that starts at `first`: where the walk is back, that is `first`.
fn vertex_after(layer: Layer, first: Vertex, v: Vertex) -> Vertex
    requires vertex_expected { VertexExpected (plain layer) first v }
    requires place_bound { v.place + 2 < 2 ^ 64 }
    ensures { VertexAfter (plain layer.entry) first v result }
{
    let stick = next_stick(layer, v.stick);
    let place = if stick == first.stick {
        first.place
    } else {
        v.place + VERTEX_BYTES
    };
    Vertex { stick, place }
}

// Where the drawn edge from a kept vertex ends, and how many removed sticks lie between.
#[derive(Clone, Copy)]
pub struct EdgeEnd {
    pub vertex: Vertex,
    pub gap: usize,
}

// The next kept vertex after v, on the contour that starts at `first`.
fn kept_after(layer: Layer, sheet: &[u8], first: Vertex, v: Vertex) -> EdgeEnd
    requires vertices_stand { VerticesStand (plain layer) sheet.now first }
    requires vertex_expected { VertexExpected (plain layer) first v }
    requires not_removed { removed_at (plain layer) (described (plain layer) sheet.now) v.stick ≡ false }
    ensures { EndsAt (plain layer.entry) sheet.now first v result }
{
    let mut at = v;
    let mut gap: usize = 0;
    loop {
        at = vertex_after(layer, first, at);
        if sheet[at.place] != b'R' {
            break;
        }
        gap += 1;
    }
    EdgeEnd { vertex: at, gap }
}

// Where a vertex lies: on its stick, at the offset that its command gives.
fn position_from(sheet: &[u8], v: Vertex) -> Position
    requires place_in_bounds { v.place + 2 ≤ length sheet.now }
    requires near_edge { NearEdge v.stick }
    ensures value { result ≡ position v.stick (get_or sheet.now (v.place + 1) 0) }
    ensures near { Near result }
{
    position_of(v.stick, sheet[v.place + 1])
}

// Whether the drawn edge that starts at the kept vertex v crosses every removed stick up to its end.
fn held_edge(layer: Layer, sheet: &[u8], first: Vertex, v: Vertex) -> bool
    requires vertices_stand { VerticesStand (plain layer) sheet.now first }
    requires vertex_expected { VertexExpected (plain layer) first v }
    requires kept { kept_at (plain layer) (described (plain layer) sheet.now) v.stick ≡ true }
    ensures { result ≡ edge_crosses (plain layer.entry) (described (plain layer.entry) sheet.now) v.stick }
{
    let end = kept_after(layer, sheet, first, v);
    let p = position_from(sheet, v);
    let q = position_from(sheet, end.vertex);
    crosses_run(layer, p, q, v.stick, end.gap)
}

// The place after the vertices of the contour that starts at `first`, if it is held. At the last kept vertex, the edge back to the first
// one is tested.
fn held_contour(layer: Layer, sheet: &[u8], first: Vertex) -> Option<usize>
    requires { VerticesStand (plain layer) sheet.now first }
    ensures { ContourChecked (plain layer.entry) sheet.now first result }
{
    let mut place = first.place;
    let mut kept: usize = 0;
    for stick in sticks_of(layer, first.stick) {
        let v = Vertex { stick, place };
        place += VERTEX_BYTES;
        if sheet[v.place] != b'R' {
            if !held_edge(layer, sheet, first, v) {
                return None;
            }
            kept += 1;
        }
    }
    if 3 <= kept { Some(place) } else { None }
}

// Question 7.
pub fn ask_described(contours: ContourSet, sheet: &[u8]) -> Answer
    requires { sheet_answer (plain contours.layer) sheet.now ≡ Yes }
    ensures { result ≡ held_answer (plain contours.entry.layer) (described (plain contours.entry.layer) sheet.now) }
{
    let mut place = SIZE_BYTES;
    for stick in firsts_of(contours) {
        let first = Vertex {
            stick,
            place: place + CONTOUR_BYTES,
        };
        let Some(end) = held_contour(contours.layer, sheet, first) else {
            return Err(Refusal::NotHeld.at(number_of(contours.layer.size, stick)));
        };
        place = end;
    }
    Ok(())
}
