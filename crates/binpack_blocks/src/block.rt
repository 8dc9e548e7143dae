//! The visits of a block.

ghost use Rattle.std.specs.Prelude.{◌≡◌, ◌+◌, ◌++◌, ◌<◌, ◌^◌, ℕ, Some, All, length, flat_map, slice_get, IfOk, OnOk};
ghost use Rattle.pass_core.specs.Functions.{UsesRegisters};
ghost use Rattle.temp_ir.specs.Insns.{reads_of, writes_of};
ghost use Rattle.binpack_blocks.specs.declared.block.Lists.{Lists};
ghost use Rattle.binpack_blocks.specs.model.Lists.{ReadsWanted, AddsRows};
ghost use Rattle.binpack_blocks.specs.model.Scanning.{state_of};
ghost use Rattle.binpack_blocks.specs.model.Standing.{AreStanding};
ghost use Rattle.binpack_blocks.specs.model.Steps.{State};
ghost use Rattle.binpack_blocks.specs.model.Wanted.{LifetimesRise};

use crate::bins::Scan;
use crate::standing::{insn_at, row_at, standing_rows};
use alloc_model::allocation::Transfer;
use alloc_rules::scan::Lifetimes;
use bk_containers::Seq;
use pass_core::block::Block;
use std::alloc::{AllocError, Global};
use temp_ir::insn::TempInsn;

/// For each instruction so far, what is done before it, and its stated registers.
#[derive(Drop)]
pub struct Lists {
    /// The transfers before each instruction.
    pub transfers: Seq<Seq<Transfer>>,
    /// The registers of what each instruction reads, in order, and then of what it writes.
    pub registers: Seq<Seq<u8>>,
}

/// Puts the instructions of a block behind others.
fn put_insns(insns: &mut Vec<TempInsn>, block: &Block<TempInsn>) -> Result<(), AllocError>
    ensures { OnOk result (insns.new.items ≡ insns.old.items ++ block.now) }
{
    for line in block.insns.iter() {
        let (_id, insn) = line;
        insns.push(*insn)?;
    }
    Ok(())
}

/// The instructions of a block.
fn insns_of(alloc: Global, block: &Block<TempInsn>) -> Result<Vec<TempInsn>, AllocError>
    ensures { IfOk result (λ insns. insns.items ≡ block.now) }
{
    let mut insns = Vec::new(alloc);
    put_insns(&mut insns, block)?;
    Ok(insns)
}

/// The block at a place.
fn block_at(blocks: &[Block<TempInsn>], place: usize) -> &Block<TempInsn>
    requires { place < length blocks.now }
    ensures { slice_get blocks.now place ≡ Some result.now }
{
    &blocks[place]
}

/// The instructions of blocks, in linear order.
#[tactic(auto, using(crate::proofs::Uses::flat_next, crate::proofs::Uses::flat_done))]
pub(crate) fn all_insns(
    alloc: Global,
    blocks: &[Block<TempInsn>],
) -> Result<Vec<TempInsn>, AllocError>
    ensures { IfOk result (λ insns. insns.items ≡ flat_map (λ insns. insns) blocks.now) }
{
    let mut insns = Vec::new(alloc);
    for place in 0..blocks.len() {
        put_insns(&mut insns, block_at(blocks, place))?;
    }
    Ok(insns)
}

impl Scan {
    /// Visits one more instruction of a block, whose first one has a number.
    fn scan_next(
        &mut self,
        alloc: Global,
        lists: &mut Lists,
        insns: &[TempInsn],
        standing: &[Seq<bool>],
        lives: &Lifetimes,
        first: u32,
        place: usize,
    ) -> Result<(), AllocError>
        requires there { place < length insns.now }
        requires few { first + length insns.now < 2 ^ 30 }
        requires rows { length standing.now ≡ length insns.now + 1 }
        requires standing { AreStanding insns.now (length insns.now) standing.now }
        requires parts { length lives.now.parts ≡ self.old.temps }
        requires rise { LifetimesRise lives.now }
        requires low { All (UsesRegisters reads_of writes_of self.old.temps) insns.now }
        requires wanted { ReadsWanted lives.now first insns.now }
        ensures rows { OnOk result ((u : State) (start : Lists)
            → AddsRows self.old.temps lives.now first insns.now u place start lists.old (state_of self.old)
            → AddsRows self.old.temps lives.now first insns.now u (place + 1) start lists.new (state_of self.new)) }
        ensures temps { OnOk result (self.new.temps ≡ self.old.temps) }
    {
        let insn = insn_at(insns, place);
        let behind = row_at(standing, insns.len() - 1 - place);
        let row = self.visit(alloc, &insn, lives, first + place as u32, behind)?;
        lists.transfers.push(row.transfers)?;
        lists.registers.push(row.registers)?;
        Ok(())
    }

    /// Visits the instructions of a block, whose first one has a number.
    fn scan_all(
        &mut self,
        alloc: Global,
        lists: &mut Lists,
        insns: &[TempInsn],
        standing: &[Seq<bool>],
        lives: &Lifetimes,
        first: u32,
    ) -> Result<(), AllocError>
        requires few { first + length insns.now < 2 ^ 30 }
        requires rows { length standing.now ≡ length insns.now + 1 }
        requires standing { AreStanding insns.now (length insns.now) standing.now }
        requires parts { length lives.now.parts ≡ self.old.temps }
        requires rise { LifetimesRise lives.now }
        requires low { All (UsesRegisters reads_of writes_of self.old.temps) insns.now }
        requires wanted { ReadsWanted lives.now first insns.now }
        ensures rows { OnOk result (AddsRows self.old.temps lives.now first insns.now (state_of self.old) (length insns.now)
            lists.old lists.new (state_of self.new)) }
        ensures temps { OnOk result (self.new.temps ≡ self.old.temps) }
    {
        for place in 0..insns.len() {
            self.scan_next(alloc, lists, insns, standing, lives, first, place)?;
        }
        Ok(())
    }

    /// Visits the instructions of a block, whose first one has a number, and gives the number behind them.
    pub(crate) fn scan_block(
        &mut self,
        alloc: Global,
        lists: &mut Lists,
        block: &Block<TempInsn>,
        lives: &Lifetimes,
        first: u32,
    ) -> Result<u32, AllocError>
        requires few { first + length block.now < 2 ^ 30 }
        requires parts { length lives.now.parts ≡ self.old.temps }
        requires rise { LifetimesRise lives.now }
        requires low { All (UsesRegisters reads_of writes_of self.old.temps) block.now }
        requires wanted { ReadsWanted lives.now first block.now }
        ensures rows { OnOk result (AddsRows self.old.temps lives.now first block.now (state_of self.old) (length block.now)
            lists.old lists.new (state_of self.new)) }
        ensures next { IfOk result (λ next. next ≡ first + length block.now) }
        ensures temps { OnOk result (self.new.temps ≡ self.old.temps) }
    {
        let insns = insns_of(alloc, block)?;
        let standing = standing_rows(alloc, insns.as_slice())?;
        self.scan_all(
            alloc,
            lists,
            insns.as_slice(),
            standing.as_slice(),
            lives,
            first,
        )?;
        Ok(first + insns.len() as u32)
    }
}
