// The work of the layer program: from the bytes of an L command with a bitmap to the bytes of a sheet, or of a refusal.
#![tactic(auto)]

mod call;
mod command;
mod steps;

pub use call::{ANSWER_LIMIT, slice};
