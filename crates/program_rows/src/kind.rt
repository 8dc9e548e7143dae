//! The kinds of rows, each with its file.

use crate::{generated, programs};
use anyhow::Result;
use row_sheets::Table;
use std::alloc::Global;

/// What the rows of a file are given to.
#[derive(Drop)]
pub enum Kind {
    Programs,
    Generated,
    Texts,
    Sums,
}

impl Table for Kind {
    fn file(&self) -> &'static str {
        match self {
            Kind::Programs => "programs.rows",
            Kind::Generated => "generated_programs.rows",
            Kind::Texts => "generated_texts.rows",
            Kind::Sums => "generated_sums.rows",
        }
    }

    fn answer(&mut self, alloc: Global, given: &str) -> Result<Vec<u8>> {
        match self {
            Kind::Programs => programs::answer(alloc, given),
            Kind::Generated => programs::answer_for_generated(alloc, given),
            Kind::Texts => generated::generated_text(alloc, given),
            Kind::Sums => generated::sum(alloc, given),
        }
    }
}
