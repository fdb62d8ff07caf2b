// The public calls Trace and Counts.
#![tactic(auto)]

mod counting;
mod fill;
mod tracing;

pub use counting::{Counted, counts};
pub use tracing::trace;
