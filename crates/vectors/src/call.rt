// The calls of the library that a script makes. What each is lent and what it writes besides bitmap and table stands in measure.rt for Areas,
// in text.rt for those that take or write bytes.
use super::command::Call;
use super::digest::digest_of;
use super::line;
use super::measure::areas_call;
use super::script::Failure;
use super::state::State;
use super::text::{plan_call, read_call, roll_call, write_call};
use grid::Size;
use report::Report;
use std::io::Read;

// Makes a call on the bytes and entries in use, and prints its line.
pub fn answer(
    input: &mut impl Read,
    out: &impl Print,
    bitmap: &[u8],
    table: &mut [u16],
    state: State,
    call: Call,
) -> Result<(), Failure> {
    let bytes = state.bytes.min(bitmap.len());
    let entries = state.entries.min(table.len());
    let table = &mut table[..entries];
    make(input, out, &bitmap[..bytes], table, state, call)?;
    line::end(out, digest_of(table))?;
    Ok(())
}

fn make(
    input: &mut impl Read,
    out: &impl Print,
    bitmap: &[u8],
    table: &mut [u16],
    state: State,
    call: Call,
) -> Result<(), Failure> {
    let (w, h) = (state.w, state.h);
    let report = match call {
        Call::Trace => report::traced_report(trace::trace(w, h, bitmap, table)),
        Call::Counts => report::counted_report(trace::counts(w, h, bitmap, table)),
        Call::Held => held_report(w, h, bitmap, table),
        Call::Smooth { limit } => {
            report::smoothed_report(smooth::smooth(w, h, bitmap, table, limit))
        }
        Call::Simplify { t } => {
            report::simplified_report(simplify::simplify(w, h, bitmap, table, t))
        }
        Call::Roll { t } => return roll_call(input, out, bitmap, table, state, call, t),
        Call::ReadSheet => return read_call(input, out, bitmap, table, state, call),
        Call::WriteSheet { length } => {
            return write_call(out, bitmap, table, state, call, length);
        }
        Call::Plan { items, floats } => {
            return plan_call(out, bitmap, table, state, call, items, floats);
        }
        Call::Areas { areas, sums } => {
            return areas_call(out, bitmap, table, state, call, areas, sums);
        }
    };
    line::begin(out, call, report)?;
    Ok(())
}

// Questions put to a layer have no figures.
fn held_report(w: u16, h: u16, bitmap: &[u8], table: &[u16]) -> Report {
    let size = Size {
        width: usize::from(w),
        height: usize::from(h),
    };
    match held::ask_layer_held(size, bitmap, table) {
        Ok(()) => report::done_report(0, 0, 0),
        Err(no) => report::refused_report(no),
    }
}
