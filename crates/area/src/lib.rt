// Twice the signed area of each contour, and the area of the layer growing from stick to stick: the call.
#![tactic(auto)]

mod contours;
mod measure;
mod walk;

pub use measure::{Measures, areas};
