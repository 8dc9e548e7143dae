//! What the instructions of a block read and write.

ghost use Rattle.std.specs.Prelude.{◌≡◌, ◌<◌, ◌^◌, ◌==◌, ◌&&◌, ◌||◌, not, ℕ, All, length, IfOk, OnOk};
ghost use Rattle.pass_core.specs.Functions.{AllInsns, UsesRegisters};
ghost use Rattle.bk_bits.specs.Sets.{has};
ghost use Rattle.bitvector_flow.specs.Lives.{has_register, reads_first, some_writes, HasFewRegisters};
ghost use Rattle.bitvector_flow.specs.model.Blocks.{IsPushed, AreBlockSets};

use bk_bits::BitSet;
use pass_core::Insn;
use pass_core::block::Block;
use std::alloc::{AllocError, Global};

/// The registers that instructions read before they write them, and those that they write.
#[derive(Drop)]
pub(crate) struct Registers {
    pub(crate) reads: BitSet,
    pub(crate) writes: BitSet,
}

/// Puts a register among those that are read, unless it was written before.
fn add_read(reads: &mut BitSet, writes: &BitSet, register: u32)
    requires same { length writes.now ≡ length reads.now }
    requires inside { register < length reads.now }
    ensures bound { length reads.new ≡ length reads.old }
    ensures members { (k : ℕ) → has reads.new k ≡ (has reads.old k || (not (has writes.now k) && (register == k))) }
{
    if !writes.test(register) {
        reads.insert(register);
    }
}

/// Puts a register among those that are written.
fn add_write(writes: &mut BitSet, register: u32)
    requires { register < length writes.now }
    ensures bound { length writes.new ≡ length writes.old }
    ensures members { (k : ℕ) → has writes.new k ≡ (has writes.old k || (register == k)) }
{
    writes.insert(register);
}

/// Puts the registers that an instruction reads among those that are read, unless they were written before.
fn add_reads<I: Insn>(reads: &mut BitSet, writes: &BitSet, insn: &I)
    requires same { length writes.now ≡ length reads.now }
    requires inside { All (λ register. register < length reads.now) (I.reads insn.now) }
    requires few { length (I.reads insn.now) < 2 ^ 32 }
    ensures bound { length reads.new ≡ length reads.old }
    ensures members { (k : ℕ) → has reads.new k
        ≡ (has reads.old k || (not (has writes.now k) && has_register (I.reads insn.now) k)) }
{
    for k in 0..u32::MAX {
        match insn.read_at(k) {
            None => return,
            Some(register) => add_read(reads, writes, register),
        }
    }
}

/// Puts the registers that an instruction writes among those that are written.
fn add_writes<I: Insn>(writes: &mut BitSet, insn: &I)
    requires inside { All (λ register. register < length writes.now) (I.writes insn.now) }
    requires few { length (I.writes insn.now) < 2 ^ 32 }
    ensures bound { length writes.new ≡ length writes.old }
    ensures members { (k : ℕ) → has writes.new k ≡ (has writes.old k || has_register (I.writes insn.now) k) }
{
    for k in 0..u32::MAX {
        match insn.write_at(k) {
            None => return,
            Some(register) => add_write(writes, register),
        }
    }
}

/// Puts the registers of the instructions of a block among those that are read and written.
fn add_block<I: Insn>(reads: &mut BitSet, writes: &mut BitSet, block: &Block<I>)
    requires same { length writes.now ≡ length reads.now }
    requires inside { All (UsesRegisters I.reads I.writes (length reads.now)) block.now }
    requires few { All (HasFewRegisters I.reads I.writes) block.now }
    ensures bound { length reads.new ≡ length reads.old }
    ensures bound_writes { length writes.new ≡ length writes.old }
    ensures reads { (k : ℕ) → has reads.new k
        ≡ (has reads.old k || (not (has writes.old k) && reads_first I.reads I.writes block.now k)) }
    ensures writes { (k : ℕ) → has writes.new k ≡ (has writes.old k || some_writes I.writes block.now k) }
{
    for line in block.insns.iter() {
        let (_id, insn) = line;
        add_reads(reads, writes, insn);
        add_writes(writes, insn);
    }
}

/// The registers of a block, of which there are so many.
fn registers_of<I: Insn>(
    alloc: Global,
    block: &Block<I>,
    registers: u32,
) -> Result<Registers, AllocError>
    requires inside { All (UsesRegisters I.reads I.writes registers) block.now }
    requires few { All (HasFewRegisters I.reads I.writes) block.now }
    ensures bound { IfOk result (λ s. length s.reads ≡ registers) }
    ensures bound_writes { IfOk result (λ s. length s.writes ≡ registers) }
    ensures reads { IfOk result (λ s. (k : ℕ) → has s.reads k ≡ reads_first I.reads I.writes block.now k) }
    ensures writes { IfOk result (λ s. (k : ℕ) → has s.writes k ≡ some_writes I.writes block.now k) }
{
    let mut reads = BitSet::new(alloc, registers)?;
    let mut writes = BitSet::new(alloc, registers)?;
    add_block(&mut reads, &mut writes, block);
    Ok(Registers { reads, writes })
}

/// Puts the sets of a block behind those of others.
fn push_block<I: Insn>(
    alloc: Global,
    reads: &mut Vec<BitSet>,
    writes: &mut Vec<BitSet>,
    block: &Block<I>,
    registers: u32,
) -> Result<(), AllocError>
    requires inside { All (UsesRegisters I.reads I.writes registers) block.now }
    requires few { All (HasFewRegisters I.reads I.writes) block.now }
    ensures { OnOk result
        (IsPushed I.reads I.writes registers block.now reads.old.items reads.new.items writes.old.items writes.new.items) }
{
    let Registers {
        reads: first,
        writes: last,
    } = registers_of(alloc, block, registers)?;
    reads.push(first)?;
    writes.push(last)?;
    Ok(())
}

/// The sets of each block.
#[derive(Drop)]
pub(crate) struct BlockSets {
    pub(crate) reads: Vec<BitSet>,
    pub(crate) writes: Vec<BitSet>,
}

/// The registers of each block.
pub(crate) fn block_sets<I: Insn>(
    alloc: Global,
    blocks: &[Block<I>],
    registers: u32,
) -> Result<BlockSets, AllocError>
    requires inside { AllInsns (UsesRegisters I.reads I.writes registers) blocks.now }
    requires few { AllInsns (HasFewRegisters I.reads I.writes) blocks.now }
    ensures { IfOk result (λ s. AreBlockSets I.reads I.writes registers blocks.now s.reads.items s.writes.items) }
{
    let mut reads = Vec::new(alloc);
    let mut writes = Vec::new(alloc);
    for block in blocks {
        push_block(alloc, &mut reads, &mut writes, block, registers)?;
    }
    Ok(BlockSets { reads, writes })
}
