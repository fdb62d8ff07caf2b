// Contours: the sticks of one and the first sticks of all to go over, the set of first sticks in linear time, and how many there are.
#![tactic(auto)]

mod ascent;
mod count;
mod lap;
mod scan;
mod set;
mod walk;

pub use ascent::FirstSticks;
pub use count::{contours_in, count_contours};
pub use lap::ContourWalk;
pub use scan::{first_sticks, mark_contour};
pub use set::ContourSet;
pub use walk::{firsts_of, sticks_of};
