//! The kinds of rows, each with its file.

use crate::{integers, lists, memory, outcomes};
use anyhow::Result;
use mem_model::memory::Mem;
use row_sheets::Table;
use std::alloc::Global;

/// What the rows of a file are given to.
#[derive(Drop)]
pub enum Kind {
    Integers,
    /// With the memory that each row goes on with.
    Memory(Mem),
    Lists,
    Outcomes,
}

impl Table for Kind {
    fn file(&self) -> &'static str {
        match self {
            Kind::Integers => "integers.rows",
            Kind::Memory(_mem) => "memory.rows",
            Kind::Lists => "lists.rows",
            Kind::Outcomes => "outcomes.rows",
        }
    }

    fn answer(&mut self, alloc: Global, given: &str) -> Result<Vec<u8>> {
        match self {
            Kind::Integers => integers::answer(alloc, given),
            Kind::Memory(mem) => memory::answer(alloc, mem, given),
            Kind::Lists => lists::answer(alloc, given),
            Kind::Outcomes => outcomes::answer(alloc, given),
        }
    }
}
