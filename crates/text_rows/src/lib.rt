//! The tables of texts with their tokens and trees.
//!
//! The files stand in `front_rows/data`. Their form is described in `docs/rows.md`, and that of each kind of row at the
//! head of its file.
#![tactic(auto)]

mod kind;
mod places;
mod tokens;
mod trees;

use crate::kind::KINDS;
use anyhow::Result;
use row_sheets::check_tables;

/// Checks the files that the words of the command line name, or all of them in the folder where the program runs where
/// there are no words, and answers how many differ.
pub fn check_rows(rt: &HostRuntime) -> Result<u32> {
    let mut kinds = KINDS;
    check_tables(rt, &mut kinds)
}
