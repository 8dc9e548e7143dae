//! The tables of programs over virtual registers, with how they run and what is selected for them.
//!
//! The files stand in `back_rows/data`. Their form is described in `docs/rows.md`, and that of each kind of row at the
//! head of its file.
#![tactic(auto)]

mod kind;
mod runs;
mod selected;
mod temporaries;

use crate::kind::Kind;
use anyhow::Result;
use row_sheets::check_tables;

/// Checks the files that the words of the command line name, or all of them in the folder where the program runs where
/// there are no words, and answers how many differ.
pub fn check_rows(rt: &HostRuntime) -> Result<u32> {
    let mut kinds = [Kind::Runs, Kind::Selected];
    check_tables(rt, &mut kinds)
}
