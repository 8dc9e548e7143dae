//! The typed unit of a C text within the limits, or why there is none.
#![tactic(auto)]

pub mod fault;
pub mod unit;

pub use fault::CompileFault;
pub use unit::{FrontEnd, read_unit};
