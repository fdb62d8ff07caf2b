// The call that measures contours, Areas. Its two outputs have a pattern before the call, and the digest of each whole output is among the
// figures, also of a refused call.
use super::command::Call;
use super::digest::digest_signed;
use super::line;
use super::script::Failure;
use super::state::State;

// The longest output of areas, and the longest of sums.
const AREAS_LIMIT: usize = 1024;

const SUMS_LIMIT: usize = 4096;

// What an output of signed numbers has before the call.
const UNSET: i64 = -1;

pub fn areas_call(
    out: &impl Print,
    bitmap: &[u8],
    table: &[u16],
    state: State,
    call: Call,
    areas: usize,
    sums: usize,
) -> Result<(), Failure> {
    if areas > AREAS_LIMIT || sums > SUMS_LIMIT {
        return Err(Failure::Wrong);
    }
    let mut area_buffer = [UNSET; AREAS_LIMIT];
    let mut sum_buffer = [UNSET; SUMS_LIMIT];
    measure(
        out,
        bitmap,
        table,
        &mut area_buffer[..areas],
        &mut sum_buffer[..sums],
        state,
        call,
    )
}

fn measure(
    out: &impl Print,
    bitmap: &[u8],
    table: &[u16],
    areas: &mut [i64],
    sums: &mut [i64],
    state: State,
    call: Call,
) -> Result<(), Failure> {
    let measured = area::areas(state.w, state.h, bitmap, table, areas, sums);
    line::begin(out, call, report::measured_report(measured))?;
    line::put(out, digest_signed(areas))?;
    line::put(out, digest_signed(sums))?;
    Ok(())
}
