// Question 8 of a sheet: whether the expected commands stand in it, one after the other, to its last byte.
#![tactic(auto)]

mod ask;
mod command;

pub use ask::ask_sheet;
