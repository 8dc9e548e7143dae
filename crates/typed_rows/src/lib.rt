//! The tables of typed units, with their weight and their text.
//!
//! The files stand in `front_rows/data`. Their form is described in `docs/rows.md`, and that of each kind of row at the
//! head of its file.
#![tactic(auto)]

mod kind;
mod units;

use crate::kind::Kind;
use anyhow::Result;
use row_sheets::check_tables;

/// Checks the files that the words of the command line name, or all of them in the folder where the program runs where
/// there are no words, and answers how many differ.
pub fn check_rows(rt: &HostRuntime) -> Result<u32> {
    let mut kinds = [Kind::Typed, Kind::Rewritten, Kind::Measures];
    check_tables(rt, &mut kinds)
}
