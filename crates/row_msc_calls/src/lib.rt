//! The compiler, as the programs that check or show whole calls of it give them to it.
#![tactic(auto)]

use anyhow::Result;
use call_outcomes::outcome::{Outcome, exit_code};
use msc_cli::top::msc_main;
use row_calls::{Compiler, Ending, Outside};
use std::alloc::Global;

/// The compiler that the program `msc` calls.
#[derive(Clone, Copy, Debug)]
pub struct Msc;

impl Compiler for Msc {
    fn call(&self, alloc: Global, words: &[String], outside: &mut Outside) -> Result<Ending> {
        let outcome = msc_main(
            alloc,
            words,
            &mut outside.files,
            &mut outside.input,
            &mut outside.out,
            &mut outside.err,
        );
        Ok(Ending {
            outcome: format!(in alloc; "{outcome:?}")?,
            status: exit_code(&outcome),
            has_written: matches!(outcome, Outcome::Built | Outcome::Printed),
        })
    }
}
