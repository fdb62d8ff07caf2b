// The public call Roll: an edit roll of one-byte commands, each of which slides, removes or pins one vertex of a held layer.
#![tactic(auto)]

mod command;
mod rolling;

pub use rolling::{RollRefused, roll};
