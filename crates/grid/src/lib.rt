// A layer's samples and grid edges, and the sticks among them; questions 1 to 4.
#![tactic(auto)]

mod edge;
mod layer;
mod question;
mod refusal;
mod sample;
mod sound;

pub use edge::{
    Edge, edge_at, edge_columns, edge_count, edge_in, edge_rows, kind_start, number_of, row_start,
};
pub use layer::{Size, is_inside, row_byte, stride_of};
pub use question::ask_layer;
pub use refusal::{Answer, Refusal, Refused};
pub use sound::Layer;
