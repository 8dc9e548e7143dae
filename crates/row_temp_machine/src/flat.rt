//! The instructions of a function in a row.

use anyhow::{Context, Result};
use pass_core::function::Func;
use std::alloc::Global;
use temp_ir::insn::TempInsn;

/// The instructions of a function.
#[derive(Drop)]
pub struct Flat {
    insns: Vec<TempInsn>,
    /// The number of the first instruction of each block, and of the end behind them.
    starts: Vec<usize>,
    /// The greatest number of arguments that the function gives.
    pub widest: u32,
}

impl Flat {
    /// The instructions of a function.
    pub fn of(alloc: Global, function: &Func<TempInsn>) -> Result<Flat> {
        let mut flat = Flat {
            insns: Vec::new(alloc),
            starts: Vec::new(alloc),
            widest: 0,
        };
        flat.starts.push(0)?;
        for block in function.blocks.as_slice() {
            for line in block.insns.iter() {
                let (_id, insn) = line;
                if let TempInsn::Call { arguments, .. } = insn {
                    flat.widest = flat.widest.max(*arguments);
                }
                flat.insns.push(*insn)?;
            }
            flat.starts.push(flat.insns.len())?;
        }
        Ok(flat)
    }

    /// The number of the first instruction of a block, or of the end.
    fn start(&self, block: usize) -> Result<usize> {
        self.starts.get(block).copied().context("no such block")
    }

    /// The number of the instruction at a place of a block.
    pub fn number(&self, block: u32, at: u32) -> Result<usize> {
        Ok(self.start(block as usize)?.wrapping_add(at as usize))
    }

    /// The instruction at a place of a block, or none behind the last one.
    pub fn insn(&self, block: u32, at: u32) -> Result<Option<TempInsn>> {
        let number = self.number(block, at)?;
        let end = self.start((block as usize).wrapping_add(1))?;
        if number >= end {
            return Ok(None);
        }
        Ok(self.insns.get(number).copied())
    }
}
