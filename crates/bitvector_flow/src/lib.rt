//! What flows between the blocks of a function, in sets of numbers with a bit for each.
//!
//! A block has what it makes, and of what the blocks next to it have, what it does not stop; `solve` finds the least
//! such sets (`specs/Flows.antt`), in rounds over the blocks. `liveness` finds so which registers are live at the tops
//! and bottoms of blocks (`specs/Lives.antt`).
#![tactic(auto)]

mod blocks;
pub mod flow;
mod live;
pub mod problem;
mod sets;
mod settling;

pub use flow::Flow;
pub use live::liveness;
pub use problem::{Problem, solve};
