// The shoelace formula over the drawn edges of a layer: what one adds to twice the area (adds), and the sum after each (sums).
#![tactic(auto)]

mod adds;
mod sums;

pub use adds::cross_of;
pub use sums::put_sums;
