//! That a loop comes by a mark.

ghost use Rattle.std.specs.Prelude.{◌≡◌, ℕ, ◌<◌, ◌||◌, nat_lt, All, IsTrue, [], length, slice_get, slice_index_or, Some};
ghost use Rattle.std.specs.Bool.{OnTrue};
ghost use Rattle.suifvm_ir.specs.Programs as programs;
ghost use Rattle.suifvm_ir.specs.Programs.{goes_back_to_marks};

use pass_core::block::Block;
use suifvm_ir::insn::VmInsn;

/// Whether an instruction is a mark.
fn is_mark(insn: &VmInsn) -> bool
    ensures { result ≡ programs.first_is_mark (Some insn.now) }
{
    matches!(insn, VmInsn::Mark)
}

/// Whether a block begins with a mark.
fn first_is_mark(block: &Block<VmInsn>) -> bool
    ensures { result ≡ programs.first_is_mark (slice_get block.now 0) }
{
    let mut lines = block.insns.iter();
    match lines.next() {
        None => false,
        Some((_id, insn)) => is_mark(insn),
    }
}

/// Whether a block is there and begins with a mark.
fn begins_with_mark(blocks: &[Block<VmInsn>], block: usize) -> bool
    ensures { result ≡ programs.begins_with_mark (slice_get blocks.now block) }
{
    match blocks.get(block) {
        None => false,
        Some(block) => first_is_mark(block),
    }
}

/// Whether a block is later than another one or begins with a mark.
fn is_ahead_or_mark(blocks: &[Block<VmInsn>], block: usize, target: u32) -> bool
    ensures { result ≡ (nat_lt block target || programs.begins_with_mark (slice_get blocks.now target)) }
{
    block < target as usize || begins_with_mark(blocks, target as usize)
}

/// Whether each target of an instruction in a block is a later block or begins with a mark.
fn goes_to_marks(blocks: &[Block<VmInsn>], block: usize, insn: &VmInsn) -> bool
    ensures { OnTrue result (IsTrue (goes_back_to_marks blocks.now block insn.now)) }
{
    match insn {
        VmInsn::Branch { block: target, .. } => is_ahead_or_mark(blocks, block, *target),
        VmInsn::Jump { block: target } => is_ahead_or_mark(blocks, block, *target),
        VmInsn::LoadConstant { .. } => true,
        VmInsn::LoadAddress { .. } => true,
        VmInsn::Load { .. } => true,
        VmInsn::Store { .. } => true,
        VmInsn::Copy { .. } => true,
        VmInsn::Unary { .. } => true,
        VmInsn::Binary { .. } => true,
        VmInsn::Shift { .. } => true,
        VmInsn::Convert { .. } => true,
        VmInsn::Compare { .. } => true,
        VmInsn::Call { .. } => true,
        VmInsn::Return { .. } => true,
        VmInsn::Mark => true,
        VmInsn::Nop => true,
    }
}

/// Whether each target of the instructions of a block is a later block or begins with a mark.
fn block_goes_to_marks(blocks: &[Block<VmInsn>], at: usize, block: &Block<VmInsn>) -> bool
    ensures { OnTrue result (All (λ i. IsTrue (goes_back_to_marks blocks.now at i)) block.now) }
{
    for line in block.insns.iter() {
        let (_id, insn) = line;
        if !goes_to_marks(blocks, at, insn) {
            return false;
        }
    }
    true
}

/// Whether each target of the instructions of blocks is a later block or begins with a mark.
pub(crate) fn all_go_to_marks(blocks: &[Block<VmInsn>]) -> bool
    ensures { OnTrue result
        ((at : ℕ) → at < length blocks.now →
        All (λ i. IsTrue (goes_back_to_marks blocks.now at i)) (slice_index_or blocks.now at [])) }
{
    for at in 0..blocks.len() {
        if !block_goes_to_marks(blocks, at, &blocks[at]) {
            return false;
        }
    }
    true
}
