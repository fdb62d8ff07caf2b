// What the exported functions report: made from the answer of each call (answers), and stored (report).
#![tactic(auto)]

mod answers;
mod report;

pub use answers::{
    counted_report, measured_report, planned_report, read_report, rolled_report, sampled_report,
    simplified_report, smoothed_report, traced_report, written_report,
};
pub use report::{Report, done_report, figure_of, put_report, refused_report};
