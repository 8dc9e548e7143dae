//! The tables of integers, objects and lists, and of outcomes of calls with their lines and statuses.
//!
//! The files stand in `back_rows/data`. Their form is described in `docs/rows.md`, and that of each kind of row at the
//! head of its file.
#![tactic(auto)]

mod integers;
mod kind;
mod lists;
mod memory;
mod outcomes;

use crate::kind::Kind;
use anyhow::Result;
use mem_model::memory::Mem;
use row_sheets::check_tables;

/// Checks the files that the words of the command line name, or all of them in the folder where the program runs where
/// there are no words, and answers how many differ.
pub fn check_rows(rt: &HostRuntime) -> Result<u32> {
    let mem = Mem::new(rt.alloc());
    let mut kinds = [
        Kind::Integers,
        Kind::Memory(mem),
        Kind::Lists,
        Kind::Outcomes,
    ];
    check_tables(rt, &mut kinds)
}
