// Questions 5, 6 and 15. For question 6 the entries are read eight at a time, with the byte that marks the sticks among them.
ghost use Rattle.std.specs.Prelude.{◌≡◌, true, ℕ, ◌+◌, ◌*◌, ◌≤◌, ◌<◌, length, get_or};
ghost use Rattle.arith.specs.Ranges.{least_of};
ghost use Rattle.grid.specs.Layer.{layer_of};
ghost use Rattle.grid.specs.Edges.{edge_columns, edge_rows, edge_count};
ghost use Rattle.grid.specs.Questions.{first_no, Sized};
ghost use Rattle.grid.specs.Plain.{plain};
ghost use Rattle.table.specs.Entries.{table_length_answer, length_questions, entries_answer, wrong_of, wrong_in, wrong_from};
ghost use Rattle.table.specs.Kept.{all_kept_answer};
ghost use Rattle.table.specs.Lent.{Lent, LentRow};

use super::entry::{Entry, is_wrong};
use super::vertex::is_removed;
use grid::{
    Answer, Layer, Refusal, Size, edge_columns, edge_count, edge_rows, kind_start, row_start,
};
use mask::{run_length, stick_byte};

fn ask_table_length(size: Size, entries: usize) -> Answer
    requires { Sized size }
    ensures { result ≡ table_length_answer size entries }
{
    if entries == edge_count(size) {
        Ok(())
    } else {
        Err(Refusal::TableLength.at(0))
    }
}

// Questions 1 to 5, of a table with this number of entries.
pub fn ask_lengths(size: Size, bitmap: &[u8], entries: usize) -> Answer
    ensures { result ≡ first_no (length_questions (layer_of size bitmap.now) entries) }
{
    grid::ask_layer(size, bitmap)?;
    ask_table_length(size, entries)
}

// Whether the entries are all 0, with one test of all together.
fn all_empty(run: &[u16]) -> bool
    ensures { result ≡ true → (k : ℕ) → k < length run.now → get_or run.now k 0 ≡ 0 }
{
    let mut any = 0;
    for n in run {
        any |= *n;
    }
    any == 0
}

// The first of up to eight entries that is wrong. Bit b of marks says whether the b-th of them is on a stick.
fn first_wrong(run: &[u16], marks: u8) -> Option<usize>
    requires { length run.now ≤ 8 }
    ensures { result ≡ least_of (wrong_from run.now marks) (length run.now) }
{
    for (b, n) in run.iter().enumerate() {
        if is_wrong((marks >> b) % 2 == 1, *n) {
            return Some(b);
        }
    }
    None
}

// The same, with one test where eight edges have no stick and their entries are all 0.
fn first_wrong_fast(run: &[u16], marks: u8) -> Option<usize>
    requires { length run.now ≤ 8 }
    ensures { result ≡ least_of (wrong_from run.now marks) (length run.now) }
{
    if marks == 0 && run.len() == 8 && all_empty(run) {
        return None;
    }
    first_wrong(run, marks)
}

// The first column of a row whose entry is wrong.
fn wrong_in_row(layer: Layer, table: &[u16], vertical: bool, row: usize) -> Option<usize>
    requires { LentRow (plain layer) table.now vertical row }
    ensures { result ≡ least_of (wrong_in (plain layer.entry) table.now vertical row) (edge_columns layer.entry.size vertical) }
{
    let columns = edge_columns(layer.size, vertical);
    let start = row_start(layer.size, vertical, row);
    for at in 0..columns.div_ceil(8) {
        let marks = stick_byte(layer, vertical, at, row);
        let count = run_length(columns, 8 * at);
        let from = start + 8 * at;
        if let Some(b) = first_wrong_fast(&table[from..from + count], marks) {
            return Some(8 * at + b);
        }
    }
    None
}

// The first edge of a kind, counted row by row, whose entry is wrong.
fn wrong_of_kind(layer: Layer, table: &[u16], vertical: bool) -> Option<usize>
    requires { Lent (plain layer) table.now }
    ensures { result ≡ least_of (wrong_of (plain layer.entry) table.now vertical) (edge_rows layer.entry.size vertical * edge_columns layer.entry.size vertical) }
{
    let columns = edge_columns(layer.size, vertical);
    for row in 0..edge_rows(layer.size, vertical) {
        if let Some(column) = wrong_in_row(layer, table, vertical, row) {
            return Some(row * columns + column);
        }
    }
    None
}

// Question 6.
pub fn ask_entries(layer: Layer, table: &[u16]) -> Answer
    requires { Lent (plain layer) table.now }
    ensures { result ≡ entries_answer (plain layer.entry) table.now }
{
    if let Some(k) = wrong_of_kind(layer, table, false) {
        return Err(Refusal::WrongEntry.at(k));
    }
    if let Some(k) = wrong_of_kind(layer, table, true) {
        return Err(Refusal::WrongEntry.at(kind_start(layer.size, true) + k));
    }
    Ok(())
}

// Question 15.
pub fn ask_all_kept(size: Size, table: &[u16]) -> Answer
    requires sized { Sized size }
    requires table_len { length table.now ≡ edge_count size }
    ensures { result ≡ all_kept_answer size table.now }
{
    for k in 0..edge_count(size) {
        if is_removed(Entry::from(table[k])) {
            return Err(Refusal::SomeRemoved.at(k));
        }
    }
    Ok(())
}
