// Drawn edges: where a vertex lies, and the next and the previous kept vertex of a contour.
#![tactic(auto)]

mod vertex;
mod walk;

pub use vertex::vertex_at;
pub use walk::{EdgeEnd, kept_after, kept_before};
