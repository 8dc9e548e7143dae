//! To which blocks the jumps lead that are the only instructions of theirs.

ghost use Rattle.std.specs.Prelude.{◌≡◌, ◌<◌, ◌^◌, length, IfOk, IfSome};
ghost use Rattle.pass_core.specs.Functions.{AllInsns, GoesToBlocks};
ghost use Rattle.suifvm_ir.specs.Insns.{targets_of};
ghost use Rattle.flow_clean.specs.Chains.{jump_target, only_jump, GoesBackToMarks};
ghost use Rattle.flow_clean.specs.model.Ends.{AreEndsFrom, end_in, end_past};

use pass_core::block::Block;
use std::alloc::{AllocError, Global};
use suifvm_ir::insn::VmInsn;

/// The block to which an instruction jumps, if it is a jump.
fn target_of_jump(insn: &VmInsn) -> Option<u32>
    ensures { result ≡ jump_target insn.now }
{
    match insn {
        VmInsn::Jump { block } => Some(*block),
        VmInsn::LoadConstant { .. } => None,
        VmInsn::LoadAddress { .. } => None,
        VmInsn::Load { .. } => None,
        VmInsn::Store { .. } => None,
        VmInsn::Copy { .. } => None,
        VmInsn::Unary { .. } => None,
        VmInsn::Binary { .. } => None,
        VmInsn::Shift { .. } => None,
        VmInsn::Convert { .. } => None,
        VmInsn::Compare { .. } => None,
        VmInsn::Branch { .. } => None,
        VmInsn::Call { .. } => None,
        VmInsn::Return { .. } => None,
        VmInsn::Mark => None,
        VmInsn::Nop => None,
    }
}

/// The block to which the only instruction of a block jumps, if there is one and it is a jump.
fn target_of_only_jump(block: &Block<VmInsn>) -> Option<u32>
    ensures { result ≡ only_jump block.now }
{
    let mut lines = block.insns.iter();
    match lines.next() {
        None => None,
        Some(line) => {
            let (_id, insn) = line;
            match lines.next() {
                None => target_of_jump(insn),
                Some(_) => None,
            }
        }
    }
}

/// The block to which a block leads, where those are known to which all behind it lead.
fn end_of(number: u32, target: Option<u32>, ends: &[u32]) -> u32
    requires { IfSome target (λ next. next < length ends.now) }
    ensures { result ≡ end_in ends.now number target }
{
    match target {
        None => number,
        Some(next) => end_behind(number, next, ends),
    }
}

/// The block to which one leads that jumps to another: that one's end where it stands behind, else that one itself.
fn end_behind(number: u32, next: u32, ends: &[u32]) -> u32
    requires { next < length ends.now }
    ensures { result ≡ end_past ends.now number next }
{
    if number < next {
        ends[next as usize]
    } else {
        next
    }
}

/// The blocks to which each block leads, from the last one on.
pub(crate) fn ends_of(alloc: Global, blocks: &[Block<VmInsn>]) -> Result<Vec<u32>, AllocError>
    requires few { length blocks.now < 2 ^ 30 }
    requires targets { AllInsns (GoesToBlocks targets_of (length blocks.now)) blocks.now }
    requires marks { GoesBackToMarks blocks.now }
    ensures { IfOk result (λ ends. AreEndsFrom blocks.now 0 ends.items) }
{
    let count = blocks.len();
    let mut ends = Vec::new(alloc);
    ends.resize(count, 0)?;
    for turn in 0..count {
        let at = count - 1 - turn;
        ends[at] = end_of(at as u32, target_of_only_jump(&blocks[at]), ends.as_slice());
    }
    Ok(ends)
}
