// Runs along a contour: where one ends, whether its chord can stand for it, what is removed of one that passes; and marks along a contour, by
// which the stick at any place of it is a short walk away.
#![tactic(auto)]

mod marks;
mod passes;
mod walk;

pub use marks::{PLACES, put_marks, stick_at};
pub use passes::passes_run;
pub use walk::{contour_length, remove_inner};
