// A sheet read against a bitmap: question 7 of the layer that a well-formed sheet describes, and the table filled from its bytes.
#![tactic(auto)]

mod fill;
mod holding;
mod read;

pub use read::read_sheet;
