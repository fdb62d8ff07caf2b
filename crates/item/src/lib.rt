// The items of the planner's list: a move or a line to a point in samples, or a close, and how an item is written out.
#![tactic(auto)]

mod item;

pub use item::{Item, Point, Written, item_to, point_of, put_item};
