// The report of each call's answer. It equals that of the call's outcome, whatever the buffers hold that the call leaves.
ghost use Rattle.std.specs.Prelude.{◌≡◌, List, ℕ};
ghost use Rattle.trace.specs.Trace as Trace;
ghost use Rattle.trace.specs.Counts as Counts;
ghost use Rattle.smooth.specs.Call as Smooth;
ghost use Rattle.simplify.specs.Call as Simplify;
ghost use Rattle.roll.specs.Roll as Roll;
ghost use Rattle.sheet.specs.Written as Write;
ghost use Rattle.reading.specs.Reading as Read;
ghost use Rattle.planner.specs.Plan as Plan;
ghost use Rattle.area.specs.Call as Area;
ghost use Rattle.report.specs.Results.{Outputs, Measures, trace_result, counts_result, smooth_result, simplify_result, roll_result, write_result, read_result, plan_result, measure_result, sample_result};

use super::report::{Report, done_report, figure_of, refused_report};
use grid::{Answer, Refused};
use item::Written;
use roll::RollRefused;
use simplify::RunCounts;
use smooth::Settling;
use trace::Counted;
use view::Sampled;

pub fn traced_report(answer: Answer) -> Report
    ensures { (t : List ℕ) → record { report = result; buffers = t } ≡ trace_result (Trace.outcome answer t) }
{
    match answer {
        Ok(()) => done_report(0, 0, 0), // Trace has no figures
        Err(no) => refused_report(no),
    }
}

pub fn counted_report(answer: Result<Counted, Refused>) -> Report
    ensures { record { report = result; buffers = tt } ≡ counts_result (Counts.figures_of answer) }
{
    match answer {
        Ok(counts) => done_report(counts.inside, counts.sticks, counts.contours),
        Err(no) => refused_report(no),
    }
}

pub fn smoothed_report(answer: Result<Settling, Refused>) -> Report
    ensures { (t : List ℕ) → record { report = result; buffers = t } ≡ smooth_result (Smooth.outcome answer t) }
{
    match answer {
        Ok(end) => done_report(end.passes, end.total, usize::from(end.settled)),
        Err(no) => refused_report(no),
    }
}

pub fn simplified_report(answer: Result<RunCounts, Refused>) -> Report
    ensures { (t : List ℕ) → record { report = result; buffers = t } ≡ simplify_result (Simplify.outcome answer t) }
{
    match answer {
        Ok(runs) => done_report(runs.removed, runs.tried, 0),
        Err(no) => refused_report(no),
    }
}

// A refused roll also reports how many commands were done.
pub fn rolled_report(answer: Result<usize, RollRefused>) -> Report
    ensures { (t : List ℕ) → record { report = result; buffers = t } ≡ roll_result (Roll.outcome answer t) }
{
    match answer {
        Ok(done) => done_report(done, 0, 0),
        Err(no) => Report {
            first: no.done,
            ..refused_report(no.question.at(no.place))
        },
    }
}

pub fn written_report(answer: Result<usize, Refused>) -> Report
    ensures { (out : List ℕ) → record { report = result; buffers = out } ≡ write_result (Write.outcome answer out) }
{
    match answer {
        Ok(length) => done_report(length, 0, 0),
        Err(no) => refused_report(no),
    }
}

pub fn read_report(answer: Answer) -> Report
    ensures { (t : List ℕ) → record { report = result; buffers = t } ≡ read_result (Read.outcome answer t) }
{
    match answer {
        Ok(()) => done_report(0, 0, 0),
        Err(no) => refused_report(no),
    }
}

pub fn planned_report(answer: Result<Written, Refused>) -> Report
    ensures { (out : Outputs) → record { report = result; buffers = out } ≡ plan_result (Plan.outcome answer out.items out.points) }
{
    match answer {
        Ok(written) => done_report(written.items, written.floats, 0),
        Err(no) => refused_report(no),
    }
}

pub fn measured_report(answer: Result<area::Measures, Refused>) -> Report
    ensures { (out : Measures) → record { report = result; buffers = out } ≡ measure_result (Area.outcome answer out.areas out.sums) }
{
    match answer {
        Ok(found) => done_report(found.contours, found.edges, figure_of(found.total)),
        Err(no) => refused_report(no),
    }
}

pub fn sampled_report(sampled: Sampled) -> Report
    ensures { record { report = result; buffers = tt } ≡ sample_result sampled }
{
    Report {
        number: sampled.number,
        place: sampled.place,
        first: usize::from(sampled.inside),
        second: 0,
        third: 0,
    }
}
