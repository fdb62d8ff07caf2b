// Trying the runs of a contour, in one loop: take a run of those that wait, test it, and remove its inner vertices or push its two parts.
ghost use Rattle.std.specs.Prelude.{◌≡◌};
ghost use Rattle.grid.specs.Plain.{plain};
ghost use Rattle.table.specs.Lent.{LentAt};
ghost use Rattle.simplify.specs.Runs.{half, simplify_contour};
ghost use Rattle.simplify.specs.Parts.{begun, reached, run_to, ContourLent};

use grid::{Edge, Layer};
use run::{PLACES, contour_length, passes_run, put_marks, remove_inner, stick_at};

// From this many sticks on a contour gets marks, by which the middle of a run is soon found.
const LONG_CONTOUR: usize = 4096;

// Room for the runs that wait: never more do (proofs/Waiting.antt).
const ROOM: usize = 22;

// A run that waits: how many edges it has, and the stick where it ends.
#[derive(Clone, Copy)]
pub struct Run {
    pub edges: usize,
    pub end: Edge,
}

// How many vertices were removed, and how many runs tried.
#[derive(Clone, Copy)]
pub struct RunCounts {
    pub removed: usize,
    pub tried: usize,
}

// How many of a run's n edges its first part has.
fn half_of(n: usize) -> usize
    ensures { result ≡ half n }
{
    n / 2
}

// The run of so many edges that ends at a stick. It is put together field by field, as a copy of the whole stick would copy its padding too.
fn run_to(edges: usize, end: Edge) -> Run
    ensures { result ≡ run_to edges end }
{
    let end = Edge {
        vertical: end.vertical,
        column: end.column,
        row: end.row,
    };
    Run { edges, end }
}

// Tries the two runs of the contour of n sticks that starts at `first`, and the parts of those that do not pass. The first `top` of `runs` wait, at the
// start the contour's second run and its first one; what stands after them means nothing. `runs[top - 1]` is taken next and starts at the stick `at`,
// `place` steps on from `first`; each other one starts where the one after it ends.
fn try_runs(
    layer: Layer,
    table: &mut [u16],
    t: u8,
    marks: &[u32],
    first: Edge,
    n: usize,
) -> RunCounts
    requires { ContourLent (plain layer) table.old first n marks.now }
    ensures { reached result table.new ≡ simplify_contour (plain layer.entry) t (begun table.old) first }
{
    let middle = half_of(n);
    let second_run = run_to(n - middle, first);
    let mut runs: [Run; ROOM] = [second_run; ROOM];
    runs[1] = run_to(middle, stick_at(layer, marks, first, 0, middle));
    let mut top: usize = 2;
    let mut at = first;
    let mut place: usize = 0;
    let mut removed: usize = 0;
    let mut tried: usize = 0;
    while 0 < top {
        top -= 1;
        let run = runs[top];
        tried += 1;
        if passes_run(layer, table, t, at, run.end, run.edges) {
            remove_inner(layer, table, at, run.edges);
            removed += run.edges - 1;
            place += run.edges;
            at = run.end;
        } else {
            let h = half_of(run.edges);
            let second_part = run_to(run.edges - h, run.end);
            let first_part = run_to(h, stick_at(layer, marks, at, place, h));
            runs[top] = second_part;
            runs[top + 1] = first_part;
            top += 2;
        }
    }
    RunCounts { removed, tried }
}

// Simplifies the contour that starts at `first`.
pub fn simplify_contour(layer: Layer, table: &mut [u16], t: u8, first: Edge) -> RunCounts
    requires { LentAt (plain layer) table.old first }
    ensures { reached result table.new ≡ simplify_contour (plain layer.entry) t (begun table.old) first }
{
    let n = contour_length(layer, first);
    if LONG_CONTOUR <= n {
        let mut marks: [u32; PLACES] = [0; PLACES];
        put_marks(layer, first, n, &mut marks);
        return try_runs(layer, table, t, &marks, first, n);
    }
    try_runs(layer, table, t, &[], first, n)
}
