//! The journal of an allocation, by a walk over its function with the temporary that each register has.
//!
//! `journal_of` goes over each instruction once, in order. Its journal is that of each allocation with these lists in
//! which a block's top takes no place away and gives none (`specs/Handed.antt`). A law says that any journal has one
//! visit for each instruction, in order (`laws`).
#![tactic(auto)]

mod gone;
mod holders;
pub mod laws;
mod lives;
mod visits;
mod walk;

pub use walk::journal_of;
