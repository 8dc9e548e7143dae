//! Checks the tables of the folder `data/`, of whole calls of the compiler: each row says what a call is given and what
//! is due. Then it runs each example of that folder, a C file on the input with its name, as `msc run` does, by its
//! image as each allocator has it, and as `msc vm` does, by its code over virtual registers, and prints how it ended and
//! what it put.
//!
//! The form of the tables is described in `docs/rows.md`, and that of each kind of row at the head of its file.
#![tactic(auto)]

mod kind;

use crate::kind::KINDS;
use anyhow::Result;
use row_calls::endings::put_ending;
use row_msc_calls::Msc;
use row_sheets::{check_tables, end_of_checks};

/// The examples, in the order in which they are run.
const EXAMPLES: [&str; 7] = [
    "word_count",
    "word_table",
    "stack_machine",
    "sieve",
    "queens",
    "heap_sort",
    "checksum",
];

/// Checks the tables that the words name, or all of them in this folder where there are no words, and runs the examples.
fn main(rt: HostRuntime) -> Result<()> {
    let mut kinds = KINDS;
    let differing = check_tables(&rt, &mut kinds)?;
    for name in EXAMPLES {
        put_ending(&rt, &Msc, name)?;
    }
    end_of_checks(&[differing])
}
