//! The kinds of rows, each with its file.

use crate::{runs, selected};
use anyhow::Result;
use row_sheets::Table;
use std::alloc::Global;

/// What the rows of a file are given to.
#[derive(Drop)]
pub enum Kind {
    Runs,
    Selected,
}

impl Table for Kind {
    fn file(&self) -> &'static str {
        match self {
            Kind::Runs => "vm_runs.rows",
            Kind::Selected => "selected.rows",
        }
    }

    fn answer(&mut self, alloc: Global, given: &str) -> Result<Vec<u8>> {
        match self {
            Kind::Runs => runs::answer(alloc, given),
            Kind::Selected => selected::answer(alloc, given),
        }
    }
}
