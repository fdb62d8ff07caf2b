// The public call Simplify: a run of a contour that its chord can stand for loses its inner vertices. A contour of n vertices costs time in
// n log n at most.
#![tactic(auto)]

mod call;
mod contours;
mod tries;

pub use call::simplify;
pub use tries::RunCounts;
