// The new offset of one vertex, from signed differences of coordinates: products of them, and one division, rounded to the nearest whole
// number with its exact meaning on both sides of zero.
ghost use Rattle.std.specs.Prelude.{◌≡◌, ◌^◌, ◌≤◌, nat_abs};
ghost use Rattle.arith.specs.Nearest.{nearest_to};
ghost use Rattle.chord.specs.Runs.{Near, NearEdge};
ghost use Rattle.offset.specs.Offset.{middle, rounded, Divisible, spread, shift, new_offset, Movable};

use chord::{Position, across_of, along_of, base_of, line_of, signed};
use grid::Edge;

// The offset toward which a half goes.
const MIDDLE: i64 = 128;

// n / d for a d above 0, rounded to the nearest whole number, a half toward MIDDLE: n / d + 1/2 rounded down, as `div_euclid` does by a number
// above 0; above MIDDLE, where a half goes down, 1/(2d) less.
fn nearest_div(n: i64, d: i64) -> i64
    requires { Divisible n d (2 ^ 42) (2 ^ 42) }
    ensures value { result ≡ nearest_to middle n (nat_abs d) }
    ensures result_bound { nat_abs result ≤ 2 ^ 44 }
{
    let less = i64::from(n > MIDDLE * d);
    (2 * n + d - less).div_euclid(2 * d)
}

// How far q is from p across the line of e, with its sign.
fn spread_of(p: Position, q: Position, e: Edge) -> i64
    requires p_near { Near p }
    requires q_near { Near q }
    ensures value { result ≡ spread p q e }
    ensures result_bound { nat_abs result ≤ 524288 }
{
    signed(across_of(e, q)) - signed(across_of(e, p))
}

// How far the segment from p to q meets the line of e from the old offset, multiplied by the spread.
fn shift_of(p: Position, q: Position, e: Edge, old: u8) -> i64
    requires p_near { Near p }
    requires q_near { Near q }
    requires near_edge { NearEdge e }
    ensures value { result ≡ shift p q e old }
    ensures result_bound { nat_abs result ≤ 2 ^ 40 }
{
    let from = signed(along_of(e, p));
    let ahead = from - signed(base_of(e)) - old as i64;
    let turn = signed(along_of(e, q)) - from;
    let before = signed(line_of(e)) - signed(across_of(e, p));
    ahead * spread_of(p, q, e) + turn * before
}

// old + 2/5 of n / d, rounded.
fn rounded_of(old: u8, n: i64, d: i64) -> i64
    requires { Divisible n d (2 ^ 40) 524288 }
    ensures value { result ≡ rounded old n (nat_abs d) }
    ensures result_bound { nat_abs result ≤ 2 ^ 44 }
{
    nearest_div(5 * d * old as i64 + 2 * n, 5 * d)
}

// The new offset of the vertex at `old` of the stick e, whose neighbours are at p and q.
pub fn new_offset(p: Position, q: Position, e: Edge, old: u8) -> u8
    requires { Movable p q e old }
    ensures { result ≡ new_offset p q e old }
{
    let d = spread_of(p, q, e);
    let n = shift_of(p, q, e, old);
    rounded_of(old, n * d.signum(), d.abs()) as u8
}
