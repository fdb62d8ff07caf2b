// The step from a stick to the next one on its contour, and back: cells, that is squares of four samples, and the links of their sides, which
// stand in a constant table.
#![tactic(auto)]

mod cell;
mod turn;
mod walk;

pub use walk::{next_stick, previous_stick};
