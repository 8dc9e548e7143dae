//! The parts of an instruction's text.

use crate::words::{memory_type, register_type};
use anyhow::{Context, Result};
use row_sheets::number::{number, offset};
use std::alloc::Global;
use suifvm_ir::types::{MemoryType, VmType};

/// An instruction's text: its operation, the types behind that, and its operands.
#[derive(Drop)]
pub struct Line<'a> {
    pub operation: &'a str,
    types: Vec<&'a str>,
    operands: Vec<&'a str>,
}

/// The number behind a letter.
fn number_behind(text: &str, letter: &str) -> Result<u32> {
    let digits = text
        .strip_prefix(letter)
        .context(format_args!("{text:?} is none of {letter:?}"))?;
    Ok(u32::try_from(number(digits)?)?)
}

impl<'a> Line<'a> {
    /// The parts of a text.
    pub fn of(alloc: Global, text: &'a str) -> Result<Line<'a>> {
        let (head, rest) = text.split_once(' ').unwrap_or((text, ""));
        let (operation, types) = head.split_once('.').unwrap_or((head, ""));
        let mut line = Line {
            operation,
            types: Vec::new(alloc),
            operands: Vec::new(alloc),
        };
        for part in types.split('.') {
            line.types.push(part)?;
        }
        for part in rest.split(", ") {
            if !part.is_empty() {
                line.operands.push(part)?;
            }
        }
        Ok(line)
    }

    /// An operand.
    pub fn operand(&self, at: usize) -> Result<&'a str> {
        self.operands
            .get(at)
            .copied()
            .context("an operand is missing")
    }

    /// How many operands there are.
    pub fn count(&self) -> usize {
        self.operands.len()
    }

    /// The register of an operand.
    pub fn register(&self, at: usize) -> Result<u32> {
        register(self.operand(at)?)
    }

    /// The block of an operand.
    pub fn block(&self, at: usize) -> Result<u32> {
        number_behind(self.operand(at)?, "B")
    }

    /// The number of an operand.
    pub fn number(&self, at: usize) -> Result<u64> {
        number(self.operand(at)?)
    }

    /// The number of an operand that may be negative.
    pub fn offset(&self, at: usize) -> Result<i64> {
        offset(self.operand(at)?)
    }

    /// A type of registers.
    pub fn ty(&self, at: usize) -> Result<VmType> {
        register_type(self.types.get(at).copied().context("a type is missing")?)
    }

    /// A type of memory.
    pub fn memory(&self, at: usize) -> Result<MemoryType> {
        memory_type(self.types.get(at).copied().context("a type is missing")?)
    }
}

/// A register.
pub fn register(text: &str) -> Result<u32> {
    number_behind(text, "v")
}

/// The number of an object of static storage, or none where the text is that of a memory local.
pub fn global(text: &str) -> Option<u32> {
    number_behind(text, "g").ok()
}

/// The number of a memory local.
pub fn local(text: &str) -> Result<u32> {
    number_behind(text, "m")
}
