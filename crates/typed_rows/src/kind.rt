//! The kinds of rows, each with its file.

use crate::units;
use anyhow::Result;
use row_sheets::Table;
use std::alloc::Global;

/// What the rows of a file are given to.
#[derive(Drop)]
pub enum Kind {
    Typed,
    Rewritten,
    Measures,
}

impl Table for Kind {
    fn file(&self) -> &'static str {
        match self {
            Kind::Typed => "typed.rows",
            Kind::Rewritten => "rewritten.rows",
            Kind::Measures => "measures.rows",
        }
    }

    fn answer(&mut self, alloc: Global, given: &str) -> Result<Vec<u8>> {
        match self {
            Kind::Typed => units::typed_unit_text(alloc, given),
            Kind::Rewritten => units::rewritten_unit_text(alloc, given),
            Kind::Measures => units::measures(alloc, given),
        }
    }
}
