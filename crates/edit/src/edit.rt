// One edit of a held layer: questions 9 to 13 and 16 of a slide and of a removal, 9 of a pin, and the one entry that is stored after a yes.
ghost use Rattle.std.specs.Prelude.{◌≡◌, List, ℕ};
ghost use Rattle.grid.specs.Layer.{layer_of};
ghost use Rattle.grid.specs.Plain.{plain};
ghost use Rattle.table.specs.Stores.{slid, without, pinned};
ghost use Rattle.held.specs.Questions.{Accepted};
ghost use Rattle.edit.specs.Edits.{edge_named, slide_answer, removal_answer, pin_answer};
ghost use Rattle.edit.specs.Chords.{chords_answer, third_left, stored_if, BothMeasurable, Editable, NamedKept, Exact};

use super::named::{Named, carries_kept, carries_pin, edge_named};
use super::redraw::{
    Chord, crosses_all, crosses_both, joined, slid_into, slid_out, within_all, within_both,
};
use drawn::kept_after;
use grid::{Answer, Edge, Layer, Refusal, Size};
use table::Entry;

// Questions 11 and 12 of the two edges that a slide redraws: both cross before either is measured.
fn ask_chords(layer: Layer, table: &[u16], place: usize, into: Chord, out: Chord, t: u8) -> Answer
    requires { BothMeasurable (plain layer) table.now into out }
    ensures { result ≡ chords_answer (plain layer.entry) table.now t place into out }
{
    if !crosses_both(layer, into, out) {
        return Err(Refusal::NoCrossing.at(place));
    }
    if !within_both(layer, table, t, into, out) {
        return Err(Refusal::BeyondTolerance.at(place));
    }
    Ok(())
}

// Questions 16 and 10 to 12 of a slide; a slide keeps the number of kept vertices.
fn ask_slide(layer: Layer, table: &[u16], place: usize, stick: Named, offset: u8, t: u8) -> Answer
    requires { NamedKept (plain layer) table.now stick }
    ensures { result ≡ slide_answer (plain layer.entry) t table.now place stick offset }
{
    let is_pinned = carries_pin(layer.size, table, stick);
    if is_pinned {
        return Err(Refusal::VertexPinned.at(place));
    }
    if offset == 0 {
        return Err(Refusal::BadOffset.at(place));
    }
    let e = edge_named(stick);
    let into = slid_into(layer, table, e, offset);
    let out = slid_out(layer, table, e, offset);
    ask_chords(layer, table, place, into, out, t)
}

// Question 13, by a walk of two gaps: without e there are still the kept vertex before it, the one after it and a third.
fn leaves_three(layer: Layer, table: &[u16], e: Edge, before: Edge) -> bool
    requires { Editable (plain layer) table.now e }
    ensures { result ≡ third_left (plain layer.entry) table.now e before }
{
    let after = kept_after(layer, table, e);
    if after.stick == before {
        return false;
    }
    let third = kept_after(layer, table, after.stick);
    third.stick != before
}

// Questions 16 and 11 to 13 of a removal.
fn ask_removal(layer: Layer, table: &[u16], place: usize, stick: Named, t: u8) -> Answer
    requires { NamedKept (plain layer) table.now stick }
    ensures { result ≡ removal_answer (plain layer.entry) t table.now place stick }
{
    let pinned = carries_pin(layer.size, table, stick);
    if pinned {
        return Err(Refusal::VertexPinned.at(place));
    }
    let e = edge_named(stick);
    let over = joined(layer, table, e);
    if !crosses_all(layer, over) {
        return Err(Refusal::NoCrossing.at(place));
    }
    if !within_all(layer, table, t, over) {
        return Err(Refusal::BeyondTolerance.at(place));
    }
    if !leaves_three(layer, table, e, over.stick) {
        return Err(Refusal::TooFewKept.at(place));
    }
    Ok(())
}

// A slide: question 9, then those after it. The named stick's entry is stored after a yes, and nothing else.
pub fn slide(
    layer: Layer,
    table: &mut [u16],
    place: usize,
    stick: Named,
    offset: u8,
    t: u8,
) -> Answer
    requires { Accepted (plain layer) table.old }
    ensures value { result ≡ slide_answer (plain layer.entry) t table.old place stick offset }
    ensures table_after { table.new ≡ stored_if result table.old (slid (plain layer.entry) table.old (edge_named stick) offset) }
{
    if !carries_kept(layer.size, table, stick) {
        return Err(Refusal::NoKeptVertex.at(place));
    }
    ask_slide(layer, table, place, stick, offset, t)?;
    table::store(layer.size, table, edge_named(stick), Entry::Kept(offset));
    Ok(())
}

// A removal, in the same way: the entry keeps the offset.
pub fn remove(layer: Layer, table: &mut [u16], place: usize, stick: Named, t: u8) -> Answer
    requires { Accepted (plain layer) table.old }
    ensures value { result ≡ removal_answer (plain layer.entry) t table.old place stick }
    ensures table_after { table.new ≡ stored_if result table.old (without (plain layer.entry) table.old (edge_named stick)) }
{
    if !carries_kept(layer.size, table, stick) {
        return Err(Refusal::NoKeptVertex.at(place));
    }
    ask_removal(layer, table, place, stick, t)?;
    table::remove(layer.size, table, edge_named(stick));
    Ok(())
}

// A pin: question 9 alone, whatever the samples are. The entry keeps the offset.
pub fn pin(size: Size, table: &mut [u16], place: usize, stick: Named) -> Answer
    requires { Exact size table.old }
    ensures answered { (bitmap : List ℕ) → result ≡ pin_answer (layer_of size bitmap) table.old place stick }
    ensures stored { (bitmap : List ℕ) → table.new ≡ stored_if result table.old (pinned (layer_of size bitmap) table.old (edge_named stick)) }
{
    if !carries_kept(size, table, stick) {
        return Err(Refusal::NoKeptVertex.at(place));
    }
    table::pin(size, table, edge_named(stick));
    Ok(())
}
