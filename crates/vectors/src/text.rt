// The calls that take or write bytes beside bitmap and table: ReadSheet, Roll, WriteSheet, and Plan, the planner's list. An output has a pattern
// before the call, and the digest of the whole output is among the figures, also of a refused call.
use super::command::Call;
use super::digest::{digest_bytes, digest_floats};
use super::line;
use super::script::{Failure, take_bytes};
use super::state::State;
use std::io::Read;

// The longest roll, sheet or output of bytes, and the longest output of floats.
const TEXT_LIMIT: usize = 500000;

const POINTS_LIMIT: usize = 32768;

// What an output of bytes has before the call, and an output of floats.
const UNSET_BYTE: u8 = 0xAA;

const UNSET_FLOAT: f64 = -1.0;

pub fn roll_call(
    input: &mut impl Read,
    out: &impl Print,
    bitmap: &[u8],
    table: &mut [u16],
    state: State,
    call: Call,
    t: u8,
) -> Result<(), Failure> {
    let mut text = [0; TEXT_LIMIT];
    let n = take_bytes(input, &mut text)?;
    let rolled = roll::roll(state.w, state.h, bitmap, table, &text[..n], t);
    line::begin(out, call, report::rolled_report(rolled))?;
    Ok(())
}

pub fn read_call(
    input: &mut impl Read,
    out: &impl Print,
    bitmap: &[u8],
    table: &mut [u16],
    state: State,
    call: Call,
) -> Result<(), Failure> {
    let mut text = [0; TEXT_LIMIT];
    let n = take_bytes(input, &mut text)?;
    let read = reading::read_sheet(state.w, state.h, bitmap, table, &text[..n]);
    line::begin(out, call, report::read_report(read))?;
    Ok(())
}

pub fn write_call(
    out: &impl Print,
    bitmap: &[u8],
    table: &[u16],
    state: State,
    call: Call,
    length: usize,
) -> Result<(), Failure> {
    if length > TEXT_LIMIT {
        return Err(Failure::Wrong);
    }
    let mut text = [UNSET_BYTE; TEXT_LIMIT];
    write(out, bitmap, table, &mut text[..length], state, call)
}

fn write(
    out: &impl Print,
    bitmap: &[u8],
    table: &[u16],
    output: &mut [u8],
    state: State,
    call: Call,
) -> Result<(), Failure> {
    let written = sheet::write_sheet(state.w, state.h, bitmap, table, output);
    line::begin(out, call, report::written_report(written))?;
    line::put(out, digest_bytes(output))?;
    Ok(())
}

pub fn plan_call(
    out: &impl Print,
    bitmap: &[u8],
    table: &[u16],
    state: State,
    call: Call,
    items: usize,
    floats: usize,
) -> Result<(), Failure> {
    if items > TEXT_LIMIT || floats > POINTS_LIMIT {
        return Err(Failure::Wrong);
    }
    let mut text = [UNSET_BYTE; TEXT_LIMIT];
    let mut points = [UNSET_FLOAT; POINTS_LIMIT];
    plan(
        out,
        bitmap,
        table,
        &mut text[..items],
        &mut points[..floats],
        state,
        call,
    )
}

fn plan(
    out: &impl Print,
    bitmap: &[u8],
    table: &[u16],
    items: &mut [u8],
    points: &mut [f64],
    state: State,
    call: Call,
) -> Result<(), Failure> {
    let planned = planner::plan(state.w, state.h, bitmap, table, items, points);
    line::begin(out, call, report::planned_report(planned))?;
    line::put(out, digest_bytes(items))?;
    line::put(out, digest_floats(points))?;
    Ok(())
}
