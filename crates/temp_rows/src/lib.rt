//! The tables of programs over temporaries: how they run, where `plain` and a scan put them, what these do at each
//! instruction, which copies and dead instructions go, what is live, and the lifetimes.
//!
//! The files stand in `back_rows/data`. Their form is described in `docs/rows.md`, and that of each kind of row at the
//! head of its file.
#![tactic(auto)]

mod coalescings;
mod journals;
mod kind;
mod lives;
mod needs;
mod placements;
mod runs;
mod scanned;

use crate::kind::KINDS;
use anyhow::Result;
use row_sheets::check_tables;

/// Checks the files that the words of the command line name, or all of them in the folder where the program runs where
/// there are no words, and answers how many differ.
pub fn check_rows(rt: &HostRuntime) -> Result<u32> {
    let mut kinds = KINDS;
    check_tables(rt, &mut kinds)
}
