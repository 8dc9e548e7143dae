//! The machine: an image is loaded into it, and it runs, a number of steps at a time.
#![tactic(auto)]

mod arithmetic;
pub mod ending;
pub mod machine;
mod memory;
mod processor;
mod registers;
