// Sheets: what the commands of one are, and the call that writes one from a held layer.
#![tactic(auto)]

mod bytes;
mod command;
mod walk;
mod write;

pub use command::{CONTOUR_BYTES, SIZE_BYTES, VERTEX_BYTES, contour_command, size_command};
pub use write::write_sheet;
