//! Flow graphs of functions, whatever their instructions are.
#![tactic(auto)]

pub mod cfg_text;
pub mod graph;
pub mod order;
mod predecessors;
pub mod renumber;
mod search;
mod successors;
pub mod unreachable;

pub use graph::{Graph, build};
pub use order::linear_order;
pub use renumber::renumber_block;
pub use unreachable::remove_unreachable;
