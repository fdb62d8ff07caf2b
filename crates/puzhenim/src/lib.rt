// The exported library: a C function for each call. It returns the number of the refusal, 0 if the call is done, and writes four figures: the
// place, then the call's own in their order, 0 for the rest. With fewer figures than four, question 14 is answered no before anything is done.
// A slice is a pointer and a length in elements. include/puzhenim.h declares them.
#![tactic(auto)]

ghost use Rattle.std.specs.Prelude.{◌≡◌, length};
ghost use Rattle.grid.specs.Layer.{layer_of, size_of};
ghost use Rattle.puzhenim.specs.Face.{trace_face, counts_face, smooth_face, simplify_face, roll_face, write_face, read_face, plan_face, measure_face, sample_face};

use grid::Refusal;
use view::Sampled;

#[unsafe(no_mangle)]
pub extern "C" fn pz_counts(
    w: u16,
    h: u16,
    bitmap: &[u8],
    table: &[u16],
    figures: &mut [u64],
) -> u32
    ensures { record { number = result; buffers = tt; figures = figures.new } ≡ counts_face (layer_of (size_of w h) bitmap.now) (length table.now) figures.old }
{
    if figures.len() < 4 {
        return u32::from(Refusal::ShortOutput);
    }
    let answer = trace::counts(w, h, bitmap, table);
    report::put_report(figures, report::counted_report(answer))
}

#[unsafe(no_mangle)]
pub extern "C" fn pz_trace(
    w: u16,
    h: u16,
    bitmap: &[u8],
    table: &mut [u16],
    figures: &mut [u64],
) -> u32
    ensures { record { number = result; buffers = table.new; figures = figures.new } ≡ trace_face (layer_of (size_of w h) bitmap.now) table.old figures.old }
{
    if figures.len() < 4 {
        return u32::from(Refusal::ShortOutput);
    }
    let answer = trace::trace(w, h, bitmap, table);
    report::put_report(figures, report::traced_report(answer))
}

#[unsafe(no_mangle)]
pub extern "C" fn pz_smooth(
    w: u16,
    h: u16,
    bitmap: &[u8],
    table: &mut [u16],
    limit: u16,
    figures: &mut [u64],
) -> u32
    ensures { record { number = result; buffers = table.new; figures = figures.new } ≡ smooth_face (layer_of (size_of w h) bitmap.now) limit table.old figures.old }
{
    if figures.len() < 4 {
        return u32::from(Refusal::ShortOutput);
    }
    let answer = smooth::smooth(w, h, bitmap, table, limit);
    report::put_report(figures, report::smoothed_report(answer))
}

#[unsafe(no_mangle)]
pub extern "C" fn pz_simplify(
    w: u16,
    h: u16,
    bitmap: &[u8],
    table: &mut [u16],
    t: u8,
    figures: &mut [u64],
) -> u32
    ensures { record { number = result; buffers = table.new; figures = figures.new } ≡ simplify_face (layer_of (size_of w h) bitmap.now) t table.old figures.old }
{
    if figures.len() < 4 {
        return u32::from(Refusal::ShortOutput);
    }
    let answer = simplify::simplify(w, h, bitmap, table, t);
    report::put_report(figures, report::simplified_report(answer))
}

#[unsafe(no_mangle)]
pub extern "C" fn pz_roll(
    w: u16,
    h: u16,
    bitmap: &[u8],
    table: &mut [u16],
    roll: &[u8],
    t: u8,
    figures: &mut [u64],
) -> u32
    ensures { record { number = result; buffers = table.new; figures = figures.new } ≡ roll_face (layer_of (size_of w h) bitmap.now) t roll.now table.old figures.old }
{
    if figures.len() < 4 {
        return u32::from(Refusal::ShortOutput);
    }
    let answer = roll::roll(w, h, bitmap, table, roll, t);
    report::put_report(figures, report::rolled_report(answer))
}

#[unsafe(no_mangle)]
pub extern "C" fn pz_write_sheet(
    w: u16,
    h: u16,
    bitmap: &[u8],
    table: &[u16],
    sheet: &mut [u8],
    figures: &mut [u64],
) -> u32
    ensures { record { number = result; buffers = sheet.new; figures = figures.new } ≡ write_face (layer_of (size_of w h) bitmap.now) table.now sheet.old figures.old }
{
    if figures.len() < 4 {
        return u32::from(Refusal::ShortOutput);
    }
    let answer = sheet::write_sheet(w, h, bitmap, table, sheet);
    report::put_report(figures, report::written_report(answer))
}

#[unsafe(no_mangle)]
pub extern "C" fn pz_read_sheet(
    w: u16,
    h: u16,
    bitmap: &[u8],
    table: &mut [u16],
    sheet: &[u8],
    figures: &mut [u64],
) -> u32
    ensures { record { number = result; buffers = table.new; figures = figures.new } ≡ read_face (layer_of (size_of w h) bitmap.now) table.old sheet.now figures.old }
{
    if figures.len() < 4 {
        return u32::from(Refusal::ShortOutput);
    }
    let answer = reading::read_sheet(w, h, bitmap, table, sheet);
    report::put_report(figures, report::read_report(answer))
}

#[unsafe(no_mangle)]
pub extern "C" fn pz_plan(
    w: u16,
    h: u16,
    bitmap: &[u8],
    table: &[u16],
    items: &mut [u8],
    points: &mut [f64],
    figures: &mut [u64],
) -> u32
    ensures { record { number = result; buffers = record { items = items.new; points = points.new }; figures = figures.new } ≡ plan_face (layer_of (size_of w h) bitmap.now) table.now (record { items = items.old; points = points.old }) figures.old }
{
    if figures.len() < 4 {
        return u32::from(Refusal::ShortOutput);
    }
    let answer = planner::plan(w, h, bitmap, table, items, points);
    report::put_report(figures, report::planned_report(answer))
}

#[unsafe(no_mangle)]
pub extern "C" fn pz_areas(
    w: u16,
    h: u16,
    bitmap: &[u8],
    table: &[u16],
    areas: &mut [i64],
    sums: &mut [i64],
    figures: &mut [u64],
) -> u32
    ensures { record { number = result; buffers = record { areas = areas.new; sums = sums.new }; figures = figures.new } ≡ measure_face (layer_of (size_of w h) bitmap.now) table.now (record { areas = areas.old; sums = sums.old }) figures.old }
{
    if figures.len() < 4 {
        return u32::from(Refusal::ShortOutput);
    }
    let answer = area::areas(w, h, bitmap, table, areas, sums);
    report::put_report(figures, report::measured_report(answer))
}

#[unsafe(no_mangle)]
pub extern "C" fn pz_sample(
    w: u16,
    h: u16,
    bitmap: &[u8],
    column: u16,
    row: u16,
    figures: &mut [u64],
) -> u32
    ensures { record { number = result; buffers = tt; figures = figures.new } ≡ sample_face (layer_of (size_of w h) bitmap.now) column row figures.old }
{
    if figures.len() < 4 {
        return u32::from(Refusal::ShortOutput);
    }
    let sampled = Sampled::from(view::sample_at(w, h, bitmap, column, row));
    report::put_report(figures, report::sampled_report(sampled))
}
