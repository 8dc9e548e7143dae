//! The tables of what passes over code make: what becomes of programs over virtual registers behind those that clean
//! their functions, what flows between the blocks of graphs, the graphs of functions, and what the moves do that are
//! made for moves at once.
//!
//! The files stand in `back_rows/data`. Their form is described in `docs/rows.md`, and that of each kind of row at the
//! head of its file.
#![tactic(auto)]

mod cleaned;
mod conditions;
mod flows;
mod graphs;
mod kind;
mod moves;

use crate::kind::KINDS;
use anyhow::Result;
use row_sheets::check_tables;

/// Checks the files that the words of the command line name, or all of them in the folder where the program runs where
/// there are no words, and answers how many differ.
pub fn check_rows(rt: &HostRuntime) -> Result<u32> {
    let mut kinds = KINDS;
    check_tables(rt, &mut kinds)
}
