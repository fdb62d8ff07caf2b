// The items of one contour: how many there are, and writing them.
#![tactic(auto)]

mod walk;

pub use walk::{count_contour, write_contour};
