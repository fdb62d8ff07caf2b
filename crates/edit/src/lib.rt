// One edit of a held layer: a kept vertex is slid along its stick or removed, after questions 9 to 13 and 16, or pinned, after 9.
#![tactic(auto)]

mod edit;
mod named;
mod redraw;

pub use edit::{pin, remove, slide};
pub use named::Named;
