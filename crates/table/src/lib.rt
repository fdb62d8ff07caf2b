// The hold table: an entry taken apart and stored, questions 5, 6 and 15, and how many vertices are kept.
#![tactic(auto)]

mod count;
mod entry;
mod question;
mod vertex;

pub use count::count_kept;
pub use entry::{Entry, has_pin, offset_of};
pub use question::{ask_all_kept, ask_entries, ask_lengths};
pub use vertex::{entry_at, is_kept, is_pinned, is_removed, offset_in, pin, remove, store};
