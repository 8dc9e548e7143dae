//! Programs over virtual registers from their parts, where the parts are lawful.
#![tactic(auto)]

mod marks;
mod names;
pub mod program;
pub mod size;
