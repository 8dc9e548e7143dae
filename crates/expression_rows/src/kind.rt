//! The kinds of rows, each with its file.

use crate::{declarations, expressions};
use anyhow::Result;
use row_sheets::Table;
use std::alloc::Global;

/// What the rows of a file are given to.
#[derive(Drop)]
pub enum Kind {
    Declarations,
    Expressions,
}

impl Table for Kind {
    fn file(&self) -> &'static str {
        match self {
            Kind::Declarations => "declarations.rows",
            Kind::Expressions => "expressions.rows",
        }
    }

    fn answer(&mut self, alloc: Global, given: &str) -> Result<Vec<u8>> {
        match self {
            Kind::Declarations => declarations::answer(alloc, given),
            Kind::Expressions => expressions::answer(alloc, given),
        }
    }
}
