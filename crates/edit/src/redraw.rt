// The edges that an edit redraws, as chords over the sticks that they pass.
ghost use Rattle.std.specs.Prelude.{◌≡◌, ◌&&◌};
ghost use Rattle.grid.specs.Plain.{plain};
ghost use Rattle.edit.specs.Chords.{crosses_chord, within_chord, slid_into, slid_out, joined_over, ChordOn, Measurable, BothMeasurable, Editable, Slidable};

use chord::{Position, crosses_run, position_of, slides_within};
use drawn::{kept_after, kept_before, vertex_at};
use grid::{Edge, Layer};
use step::next_stick;
use table::{entry_at, offset_in};

// A drawn edge: its two ends, the stick where it starts, and how many removed sticks it passes after that.
#[derive(Clone, Copy)]
pub struct Chord {
    pub from: Position,
    pub to: Position,
    pub stick: Edge,
    pub gap: usize,
}

// Question 11 of a redrawn edge: it crosses every stick that it passes.
pub fn crosses_all(layer: Layer, c: Chord) -> bool
    requires { ChordOn (plain layer) c }
    ensures { result ≡ crosses_chord (plain layer.entry) c }
{
    crosses_run(layer, c.from, c.to, c.stick, c.gap)
}

// Question 12 of a redrawn edge: the vertex of every stick that it passes slides to it within t.
pub fn within_all(layer: Layer, table: &[u16], t: u8, c: Chord) -> bool
    requires { Measurable (plain layer) table.now c }
    ensures { result ≡ within_chord (plain layer.entry) table.now t c }
{
    let mut at = c.stick;
    for _ in 0..c.gap {
        at = next_stick(layer, at);
        if !slides_within(
            t,
            c.from,
            c.to,
            at,
            offset_in(entry_at(layer.size, table, at)),
        ) {
            return false;
        }
    }
    true
}

// The same of the two edges that a slide redraws.
pub fn crosses_both(layer: Layer, into: Chord, out: Chord) -> bool
    requires into_on { ChordOn (plain layer) into }
    requires out_on { ChordOn (plain layer) out }
    ensures { result ≡ (crosses_chord (plain layer.entry) into && crosses_chord (plain layer.entry) out) }
{
    crosses_all(layer, into) && crosses_all(layer, out)
}

pub fn within_both(layer: Layer, table: &[u16], t: u8, into: Chord, out: Chord) -> bool
    requires { BothMeasurable (plain layer) table.now into out }
    ensures { result ≡ (within_chord (plain layer.entry) table.now t into && within_chord (plain layer.entry) table.now t out) }
{
    within_all(layer, table, t, into) && within_all(layer, table, t, out)
}

// The edge that ends at the vertex of e, once that vertex lies at another offset.
pub fn slid_into(layer: Layer, table: &[u16], e: Edge, offset: u8) -> Chord
    requires { Slidable (plain layer) table.now e offset }
    ensures value { result ≡ slid_into (plain layer.entry) table.now e offset }
    ensures chord_on { ChordOn (plain layer.entry) result }
{
    let before = kept_before(layer, table, e);
    let stick = before.stick;
    Chord {
        from: vertex_at(layer.size, table, stick),
        to: position_of(e, offset),
        stick,
        gap: before.gap,
    }
}

// The edge that starts there.
pub fn slid_out(layer: Layer, table: &[u16], e: Edge, offset: u8) -> Chord
    requires { Slidable (plain layer) table.now e offset }
    ensures value { result ≡ slid_out (plain layer.entry) table.now e offset }
    ensures chord_on { ChordOn (plain layer.entry) result }
{
    let after = kept_after(layer, table, e);
    Chord {
        from: position_of(e, offset),
        to: vertex_at(layer.size, table, after.stick),
        stick: e,
        gap: after.gap,
    }
}

// The edge that joins the kept vertices before and after e, once that of e is removed: it passes e too.
pub fn joined(layer: Layer, table: &[u16], e: Edge) -> Chord
    requires { Editable (plain layer) table.now e }
    ensures value { result ≡ joined_over (plain layer.entry) table.now e }
    ensures chord_on { ChordOn (plain layer.entry) result }
{
    let before = kept_before(layer, table, e);
    let after = kept_after(layer, table, e);
    let stick = before.stick;
    Chord {
        from: vertex_at(layer.size, table, stick),
        to: vertex_at(layer.size, table, after.stick),
        stick,
        gap: before.gap + 1 + after.gap,
    }
}
