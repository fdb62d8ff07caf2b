// The sticks among eight edges of a row as the bits of a byte, and by such bytes how many inside samples and sticks a layer has.
#![tactic(auto)]

mod count;
mod mask;

pub use count::{inside_count, stick_count};
pub use mask::{run_length, stick_byte};
