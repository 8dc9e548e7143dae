//! The tables of literals, scopes, types and structs.
//!
//! The files stand in `front_rows/data`. Their form is described in `docs/rows.md`, and that of each kind of row at the
//! head of its file.
#![tactic(auto)]

mod kind;
mod layouts;
mod literals;
mod scopes;
mod types;

use crate::kind::Kind;
use anyhow::Result;
use row_sheets::check_tables;

/// Checks the files that the words of the command line name, or all of them in the folder where the program runs where
/// there are no words, and answers how many differ.
pub fn check_rows(rt: &HostRuntime) -> Result<u32> {
    let mut kinds = [
        Kind::Integers,
        Kind::Characters,
        Kind::Texts,
        Kind::Scopes,
        Kind::Layouts,
    ];
    check_tables(rt, &mut kinds)
}
