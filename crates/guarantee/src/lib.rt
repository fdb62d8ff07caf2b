// The guarantee over every list of calls, that pins hold over such a list, and the paper's cases: theorems, in specs/ and proofs/. The functions
// here make each call that the first two speak of, and promise that it leaves the table that the theorems' definitions name: so the theorems are about
// this code. The exported functions have them too (puzhenim, proofs/Exported).
#![tactic(auto)]

mod calls;
mod openings;

pub use calls::{call_read, call_roll, call_simplify, call_smooth, call_trace};
pub use openings::{open_by_sheet, open_by_trace};
