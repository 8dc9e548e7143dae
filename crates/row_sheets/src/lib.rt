//! Files of rows, each of which says what a public function is given and what is due.
//!
//! A program of rows names its tables, each a file with the function that its rows are given to, and
//! [`check_tables`] checks them. The form of the files is described in `docs/rows.md`.
#![tactic(auto)]

pub mod escape;
pub mod number;
mod sheet;
pub mod table;

pub use table::{Table, check_tables, end_of_checks};
