//! The kinds of rows, each with its file.

use anyhow::{Context, Result};
use row_calls::call::{answer, answer_for_text};
use row_calls::twice::{answer_for_text_twice, answer_twice};
use row_msc_calls::Msc;
use row_sheets::Table;
use std::alloc::Global;

/// The call that the texts of `programs.rows` are given to, on a stack that holds the room of each `main` there.
const RUN: &str = "msc run a.c --stack 65536";

/// What is put behind a call that asks for no allocator, so that it is made by the one that is not the default.
const IN_SLOTS: &str = " --alloc plain";

/// The second call that the texts of `generated_calls.rows` are given to.
const VM: &str = "msc vm a.c";

/// What the rows of a file are given to.
#[derive(Clone, Copy, Debug)]
pub enum Kind {
    Programs,
    Calls,
    Vm,
    Commands,
    Runs,
    Generated,
}

/// The kinds in the order in which they are checked.
pub const KINDS: [Kind; 6] = [
    Kind::Programs,
    Kind::Calls,
    Kind::Vm,
    Kind::Commands,
    Kind::Runs,
    Kind::Generated,
];

/// What comes for a text by its image, by each allocator.
fn answer_by_both(alloc: Global, text: &str) -> Result<Vec<u8>> {
    answer_for_text_twice(alloc, &Msc, RUN, IN_SLOTS, "a.c", text)
}

/// What comes for the text that is generated for a seed and a size, by its image and by its code over virtual registers.
fn answers_for_generated(alloc: Global, given: &str) -> Result<Vec<u8>> {
    let text = program_rows::generated_text(alloc, given)?;
    let text = str::from_utf8(text.as_slice()).context("a text of letters")?;
    let mut shown = answer_by_both(alloc, text)?;
    let by_vm = answer_for_text(alloc, &Msc, VM, "a.c", text)?;
    shown.extend_from_slice(by_vm.as_slice())?;
    Ok(shown)
}

impl Table for Kind {
    fn file(&self) -> &'static str {
        match self {
            Kind::Programs => "programs.rows",
            Kind::Calls => "calls.rows",
            Kind::Vm => "vm.rows",
            Kind::Commands => "commands.rows",
            Kind::Runs => "runs.rows",
            Kind::Generated => "generated_calls.rows",
        }
    }

    fn answer(&mut self, alloc: Global, given: &str) -> Result<Vec<u8>> {
        match self {
            Kind::Programs => answer_by_both(alloc, given),
            Kind::Runs => answer_twice(alloc, &Msc, given, IN_SLOTS),
            Kind::Generated => answers_for_generated(alloc, given),
            Kind::Calls | Kind::Vm | Kind::Commands => answer(alloc, &Msc, given),
        }
    }
}
