// The new offset of a vertex that is smoothed, from its old one and the positions of its neighbours.
#![tactic(auto)]

mod offset;

pub use offset::new_offset;
