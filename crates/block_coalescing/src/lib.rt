//! Copies and dead instructions go from functions over temporaries.
//!
//! A plan says of each instruction of a block whether it goes, or into which temporary it puts its result; nothing is
//! proved of it (`plan`). A walk carries it out, which keeps of each temporary of the old block the one of the new block
//! that holds the same, and fails where one is missing (`walk`, `specs/Walks.antt`). Where a block fails the function
//! stays as it was. `specs/Kept.antt` says what functions and programs keep.
#![tactic(auto)]

pub mod function;
pub mod laws;
mod plan;
mod renamed;
mod table;
mod walk;

pub use function::coalesce;
