//! The machine that runs programs over virtual registers.
//!
//! A program is put into tables (`indexing`), and a machine begins at a function of it (`beginning`). A step of it is
//! one of the meaning (`step`), which `steps` and `calls` have the parts of. Who runs it asks the outside for bytes.
#![tactic(auto)]

pub mod beginning;
mod calls;
pub mod indexing;
pub mod machine;
pub mod step;
pub mod steps;
pub mod tables;
