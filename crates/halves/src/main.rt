// The halves program: for each k from 1 to 254 a line with k.5 and the new offsets of four vertices for which old + 2/5 of (v - old) is that. No
// layer comes to a half, so no call shows how one is rounded.
#![tactic(auto)]

ghost use Rattle.std.specs.Prelude.{◌≡◌, ◌≤◌};
ghost use Rattle.halves.specs.Halves.{IsPlaced, moved_to, toward_middle};

use chord::Position;
use grid::Edge;
use offset::new_offset;
use std::io;

// The new offset of the vertex at `old` of a stick on the line 256, whose neighbours lie 1 before that line and 3 after it, at `before` and
// `after` along the stick: v is (3·before + after) / 4.
fn moved(vertical: bool, old: u8, before: usize, after: usize) -> u8
    requires { IsPlaced old before after }
    ensures { result ≡ moved_to vertical old before after }
{
    if vertical {
        let p = Position { x: 255, y: before };
        let q = Position { x: 259, y: after };
        let e = Edge {
            vertical: true,
            column: 1,
            row: 0,
        };
        return new_offset(p, q, e, old);
    }
    let p = Position { x: before, y: 255 };
    let q = Position { x: after, y: 259 };
    let e = Edge {
        vertical: false,
        column: 0,
        row: 1,
    };
    new_offset(p, q, e, old)
}

// old is k, and v is k + 5/4.
fn from_below(vertical: bool, k: u8) -> u8
    requires le_k { 1 ≤ k }
    requires k_bound { k ≤ 254 }
    ensures { result ≡ toward_middle k }
{
    let from = usize::from(k);
    moved(vertical, k, from + 1, from + 2)
}

// old is k + 1, and v is k + 1 - 5/4.
fn from_above(vertical: bool, k: u8) -> u8
    requires le_k { 1 ≤ k }
    requires k_bound { k ≤ 254 }
    ensures { result ≡ toward_middle k }
{
    let from = usize::from(k);
    moved(vertical, k + 1, from, from - 1)
}

fn write_line(out: &impl Print, k: u8) -> io::Result<()>
    requires le_k { 1 ≤ k }
    requires k_bound { k ≤ 254 }
{
    let (below, above) = (from_below(false, k), from_above(false, k));
    let (left, right) = (from_below(true, k), from_above(true, k));
    println!(out; "{k}.5 {below} {above} {left} {right}")
}

fn main(rt: HostRuntime) -> io::Result<()> {
    for k in 1..=254 {
        write_line(&rt, k)?;
    }
    Ok(())
}
