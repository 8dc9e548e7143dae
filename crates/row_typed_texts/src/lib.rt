//! Writes typed statements and expressions as rows show them.
//!
//! The form of the texts is described at the head of the file of rows (`typed_rows`).
#![tactic(auto)]

mod expressions;
pub mod statements;
pub mod types;
mod words;
