// Where a vertex is, and how a position lies to the grid line of an edge: along it, across it, and off it.
ghost use Rattle.std.specs.Prelude.{◌≡◌, ◌≤◌, pos, nat_abs};
ghost use Rattle.chord.specs.Points.{position};
ghost use Rattle.chord.specs.Crossing.{along, across, base, line, off};
ghost use Rattle.chord.specs.Runs.{Near, NearEdge};

use grid::Edge;

// In 1/256 of the pitch from sample (0,0).
#[derive(Clone, Copy)]
pub struct Position {
    pub x: usize,
    pub y: usize,
}

// A coordinate as a signed number.
pub fn signed(n: usize) -> i64
    requires { n ≤ 262144 }
    ensures value { result ≡ pos n }
    ensures result_bound { nat_abs result ≤ 262144 }
{
    n as i64
}

// The vertex at an offset of an edge.
pub fn position_of(e: Edge, offset: u8) -> Position
    requires { NearEdge e }
    ensures value { result ≡ position e offset }
    ensures near { Near result }
{
    let o = usize::from(offset);
    if e.vertical {
        Position {
            x: 256 * e.column,
            y: 256 * e.row + o,
        }
    } else {
        Position {
            x: 256 * e.column + o,
            y: 256 * e.row,
        }
    }
}

pub fn along_of(e: Edge, p: Position) -> usize
    requires { Near p }
    ensures value { result ≡ along e p }
    ensures upper_bound { result ≤ 262144 }
{
    if e.vertical { p.y } else { p.x }
}

pub fn across_of(e: Edge, p: Position) -> usize
    requires { Near p }
    ensures value { result ≡ across e p }
    ensures upper_bound { result ≤ 262144 }
{
    if e.vertical { p.x } else { p.y }
}

// Where the edge begins on its line.
pub fn base_of(e: Edge) -> usize
    requires { NearEdge e }
    ensures value { result ≡ base e }
    ensures upper_bound { result ≤ 261888 }
{
    if e.vertical {
        256 * e.row
    } else {
        256 * e.column
    }
}

// Where the line lies.
pub fn line_of(e: Edge) -> usize
    requires { NearEdge e }
    ensures value { result ≡ line e }
    ensures upper_bound { result ≤ 261888 }
{
    if e.vertical {
        256 * e.column
    } else {
        256 * e.row
    }
}

// How far a position is off the line.
#[tactic(auto, unfolding(crate::specs::Crossing::off))]
pub fn off_line(e: Edge, p: Position) -> usize
    requires near_edge { NearEdge e }
    requires near { Near p }
    ensures value { result ≡ off e p }
    ensures upper_bound { result ≤ 262144 }
{
    across_of(e, p).abs_diff(line_of(e))
}
