//! Functions whose instructions read a register in place of a copy of it.

ghost use Rattle.std.specs.Prelude.{◌≡◌, ◌+◌, ◌≤◌, ◌<◌, ◌++◌, ◌^◌, All, length, map, IfOk, OnOk};
ghost use Rattle.pass_core.specs.Functions.{AllInsns, UsesRegisters, count_of};
ghost use Rattle.suifvm_ir.specs.Insns.{reads_of, writes_of};
ghost use Rattle.flow_clean.specs.Chains.{GoesBackToMarks, MeasuresStay};
ghost use Rattle.flow_clean.specs.Copies.{no_copies, without_copies, IsWithoutCopiesOf};
ghost use Rattle.flow_clean.specs.model.Origins.{AreLast, IsLineCopied, IsBlockCopied, IsBlockPushed};

use crate::origins::{LastWrite, note, with_origins};
use bk_containers::Seq;
use pass_core::block::Block;
use pass_core::function::Func;
use std::alloc::{AllocError, Global};
use suifvm_ir::insn::VmInsn;

/// Puts an instruction behind those so far that reads origins in place of copies, and notes what it writes at some time.
fn copy_line(
    alloc: Global,
    made: &mut Block<VmInsn>,
    writes: &mut [LastWrite],
    start: u32,
    now: u32,
    insn: &VmInsn,
) -> Result<(), AllocError>
    requires inside { All (λ register. register < length writes.now) (writes_of insn.now) }
    ensures { OnOk result (IsLineCopied start now insn.now made.old made.new writes.old writes.new) }
{
    let changed = with_origins(alloc, writes, start, insn)?;
    note(writes, now, &changed);
    made.push(changed)
}

/// Puts the instructions of a block that begins at some time behind those so far, and gives the time behind them.
fn copy_lines(
    alloc: Global,
    made: &mut Block<VmInsn>,
    writes: &mut [LastWrite],
    start: u32,
    block: &Block<VmInsn>,
) -> Result<u32, AllocError>
    requires few { start + length block.now < 2 ^ 32 }
    requires inside { All (UsesRegisters reads_of writes_of (length writes.now)) block.now }
    requires last { AreLast (length writes.now) start writes.now }
    ensures { IfOk result (λ next. IsBlockCopied start next block.now made.old made.new writes.old writes.new) }
{
    let mut now = start;
    for line in block.insns.iter() {
        let (_id, insn) = line;
        copy_line(alloc, made, writes, start, now, insn)?;
        now += 1;
    }
    Ok(now)
}

/// Puts a block behind those so far that reads origins in place of copies, and gives the time behind it.
fn push_block(
    alloc: Global,
    made: &mut Seq<Block<VmInsn>>,
    writes: &mut [LastWrite],
    start: u32,
    block: &Block<VmInsn>,
) -> Result<u32, AllocError>
    requires few { start + length block.now < 2 ^ 32 }
    requires inside { All (UsesRegisters reads_of writes_of (length writes.now)) block.now }
    requires last { AreLast (length writes.now) start writes.now }
    ensures { IfOk result (λ next. IsBlockPushed start next block.now made.old made.new writes.old writes.new) }
{
    let mut lines = Block::new(alloc);
    let next = copy_lines(alloc, &mut lines, writes, start, block)?;
    made.push(lines)?;
    Ok(next)
}

/// The blocks that read origins in place of copies, where nothing was written yet.
fn copy_blocks(
    alloc: Global,
    writes: &mut [LastWrite],
    blocks: &[Block<VmInsn>],
) -> Result<Seq<Block<VmInsn>>, AllocError>
    requires few { count_of blocks.now < 2 ^ 30 }
    requires inside { AllInsns (UsesRegisters reads_of writes_of (length writes.now)) blocks.now }
    requires last { AreLast (length writes.now) 1 writes.now }
    ensures { IfOk result (λ made. made ≡ map (without_copies no_copies) blocks.now) }
{
    let mut made = Seq::new(alloc);
    let mut start = 1;
    for block in blocks {
        start = push_block(alloc, &mut made, writes, start, block)?;
    }
    Ok(made)
}

/// The blocks of a function that read origins in place of copies.
fn blocks_without_copies(alloc: Global, f: &Func<VmInsn>) -> Result<Seq<Block<VmInsn>>, AllocError>
    ensures { IfOk result (λ made. made ≡ map (without_copies no_copies) f.now.blocks) }
{
    let mut writes = Vec::new(alloc);
    writes.resize(f.temps as usize, LastWrite { when: 0, source: 0 })?;
    copy_blocks(alloc, writes.as_mut_slice(), f.blocks.as_slice())
}

/// The function in which each instruction reads, in place of a register that is a copy of another one, that other one: a
/// register is one where the last write of it in its block is a move of another register which was not written since.
/// Nothing else changes. It fails only where memory is short.
pub fn local_copies(alloc: Global, f: &Func<VmInsn>) -> Result<Func<VmInsn>, AllocError>
    requires { GoesBackToMarks f.now.blocks }
    ensures made { IfOk result (λ g. IsWithoutCopiesOf f.now g) }
    ensures measures { IfOk result (λ g. MeasuresStay f.now g) }
{
    let blocks = blocks_without_copies(alloc, f)?;
    let name = f.name.copy()?;
    let objects = Seq::from_vec(Vec::from_slice(alloc, f.objects.as_slice())?);
    Ok(Func {
        name,
        params: f.params,
        temps: f.temps,
        objects,
        blocks,
    })
}
