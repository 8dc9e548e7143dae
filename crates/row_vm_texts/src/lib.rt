//! Reads programs over virtual registers from the texts in which rows give them.
//!
//! The form of the texts is described at the head of each file of rows (`vm_rows`, `pass_rows`).
#![tactic(auto)]

mod insns;
mod line;
pub mod reader;
pub mod text;
mod words;
