// Question 7: is the layer held? Each kept vertex answers for the drawn edge that starts at it. A gap is walked three times: to find where
// its drawn edge ends, to test the edge against the sticks in it (up to the first that is not crossed), and on the way round the contour.
// Only the set of first sticks is remembered.
#![tactic(auto)]

mod edge;
mod question;
mod walk;

pub use question::{ask_held_firsts, ask_kept_firsts, ask_layer_held};
