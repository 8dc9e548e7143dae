//! The kinds of rows, each with its file.

use crate::faults;
use anyhow::Result;
use row_sheets::Table;
use std::alloc::Global;

/// What the rows of a file are given to.
#[derive(Drop)]
pub enum Kind {
    Faults,
}

impl Table for Kind {
    fn file(&self) -> &'static str {
        match self {
            Kind::Faults => "faults.rows",
        }
    }

    fn answer(&mut self, alloc: Global, given: &str) -> Result<Vec<u8>> {
        match self {
            Kind::Faults => faults::answer(alloc, given),
        }
    }
}
