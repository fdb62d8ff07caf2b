// Chords: where a vertex is, whether a chord crosses a stick, or a number of sticks that follow one another on a contour, and whether a
// vertex slides to it within a tolerance.
#![tactic(auto)]

mod cross;
mod position;
mod run;

pub use cross::{crosses_stick, slides_within};
pub use position::{Position, across_of, along_of, base_of, line_of, position_of, signed};
pub use run::crosses_run;
