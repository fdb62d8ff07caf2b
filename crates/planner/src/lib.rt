// The planner's list: the call, and the items that it writes.
#![tactic(auto)]

mod listing;
mod places;
mod planning;

pub use planning::plan;
