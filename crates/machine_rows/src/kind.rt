//! The kinds of rows, each with its file.

use crate::{assembly, assembly_words, constants, divisions, encodings, runs, steps};
use anyhow::Result;
use row_sheets::Table;
use std::alloc::Global;

/// What the rows of a file are given to.
#[derive(Clone, Copy, Debug)]
pub enum Kind {
    Encodings,
    Steps,
    Divisions,
    Constants,
    Assembly,
    AssemblyWords,
    Runs,
}

/// The kinds in the order in which they are checked.
pub const KINDS: [Kind; 7] = [
    Kind::Encodings,
    Kind::Steps,
    Kind::Divisions,
    Kind::Constants,
    Kind::Assembly,
    Kind::AssemblyWords,
    Kind::Runs,
];

impl Table for Kind {
    fn file(&self) -> &'static str {
        match self {
            Kind::Encodings => "encodings.rows",
            Kind::Steps => "steps.rows",
            Kind::Divisions => "divisions.rows",
            Kind::Constants => "constants.rows",
            Kind::Assembly => "assembly.rows",
            Kind::AssemblyWords => "assembly_words.rows",
            Kind::Runs => "runs.rows",
        }
    }

    fn answer(&mut self, alloc: Global, given: &str) -> Result<Vec<u8>> {
        match self {
            Kind::Encodings => encodings::instruction(alloc, given),
            Kind::Steps => steps::answer(alloc, given),
            Kind::Divisions => divisions::answer(alloc, given),
            Kind::Constants => constants::answer(alloc, given),
            Kind::Assembly => assembly::answer(alloc, given),
            Kind::AssemblyWords => assembly_words::answer(alloc, given),
            Kind::Runs => runs::answer(alloc, given),
        }
    }
}
