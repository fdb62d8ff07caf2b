// Sets of horizontal edges, one bit for each number, and the bits of a word that are set.
#![tactic(auto)]

mod bits;
mod ones;
mod set;

pub use bits::ones_of;
pub use ones::Ones;
pub use set::{EdgeSet, WORDS, contains, insert, lowest_bit, member_count, next_first, remove};
