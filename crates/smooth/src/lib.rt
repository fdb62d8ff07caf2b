// The public call Smooth: each contour in turn, by passes until it is settled, in which a vertex that is not pinned is slid by two fifths of the way
// to the segment between its neighbours.
#![tactic(auto)]

mod pass;
mod settling;
mod smoothing;

pub use settling::Settling;
pub use smoothing::smooth;
