// The layer view: a record that refers to a lent bitmap and gives one sample at a time.
#![tactic(auto)]

mod viewing;

pub use viewing::{Sampled, View, make_view, sample, sample_at};
