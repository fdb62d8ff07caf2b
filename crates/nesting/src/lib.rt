// Which contours lie within which: the set of sticks on bores, and the contours to go over with the depth of each.
#![tactic(auto)]

mod bore;
mod descent;
mod nested;
mod set;
mod sweep;

pub use bore::bore_sticks;
pub use descent::NestedFirsts;
pub use nested::{Nested, nested_of};
pub use set::Nesting;
