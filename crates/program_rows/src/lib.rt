//! The tables of C programs, with how the programs that they are lowered to run, as they are typed and not rewritten,
//! and of generated texts, each by its seed and its size: the whole text, or its length and checksum.
//!
//! The files stand in `front_rows/data`. Their form is described in `docs/rows.md`, and that of each kind of row at the
//! head of its file.
#![tactic(auto)]

mod generated;
mod kind;
mod programs;

use crate::kind::Kind;
use anyhow::Result;
pub use generated::generated_text;
use row_sheets::check_tables;

/// Checks the files that the words of the command line name, or all of them in the folder where the program runs where
/// there are no words, and answers how many differ.
pub fn check_rows(rt: &HostRuntime) -> Result<u32> {
    let mut kinds = [Kind::Programs, Kind::Generated, Kind::Texts, Kind::Sums];
    check_tables(rt, &mut kinds)
}
