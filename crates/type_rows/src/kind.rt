//! The kinds of rows, each with its file.

use crate::{layouts, literals, scopes};
use anyhow::Result;
use row_sheets::Table;
use std::alloc::Global;

/// What the rows of a file are given to.
#[derive(Drop)]
pub enum Kind {
    Integers,
    Characters,
    Texts,
    Scopes,
    Layouts,
}

impl Table for Kind {
    fn file(&self) -> &'static str {
        match self {
            Kind::Integers => "integers.rows",
            Kind::Characters => "characters.rows",
            Kind::Texts => "texts.rows",
            Kind::Scopes => "scopes.rows",
            Kind::Layouts => "layouts.rows",
        }
    }

    fn answer(&mut self, alloc: Global, given: &str) -> Result<Vec<u8>> {
        match self {
            Kind::Integers => literals::integer_answer(alloc, given),
            Kind::Characters => literals::character_answer(alloc, given),
            Kind::Texts => literals::text_answer(alloc, given),
            Kind::Scopes => scopes::answer(alloc, given),
            Kind::Layouts => layouts::answer(alloc, given),
        }
    }
}
