//! The tables of functions over temporaries that are laid out in frames, how they run, and the texts of allocations.
//!
//! The files stand in `back_rows/data`. Their form is described in `docs/rows.md`, and that of each kind of row at the
//! head of its file.
#![tactic(auto)]

mod allocations;
pub mod callee_saved_rows;
mod kind;
mod program;
mod runs;
mod texts;

use crate::kind::KINDS;
use anyhow::Result;
use row_sheets::check_tables;

/// Checks the files that the words of the command line name, or all of them in the folder where the program runs where
/// there are no words, and answers how many differ.
pub fn check_rows(rt: &HostRuntime) -> Result<u32> {
    let mut kinds = KINDS;
    check_tables(rt, &mut kinds)
}
