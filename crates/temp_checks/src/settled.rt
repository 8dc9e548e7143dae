//! Whether each fixed register that an instruction reads was written in its block.

ghost use Rattle.std.specs.Prelude.{◌≡◌, not, [], ◌∷◌, ◌++◌, filter, IfOk, OnOk};
ghost use Rattle.std.specs.List.{list_all};
ghost use Rattle.bk_ilist.specs.Listing.{items};
ghost use Rattle.temp_ir.specs.Fixed as fixed;

use crate::registers::{ended_registers, fixed_reads, fixed_writes, of_arguments};
use pass_core::block::Block;
use pass_core::function::Func;
use std::alloc::{AllocError, Global};
use temp_ir::insn::TempInsn;

/// Whether a register is in a list.
#[tactic(auto, using(crate::proofs::Loops::has_next, crate::proofs::Loops::has_found, crate::proofs::Loops::has_end))]
fn has(registers: &[u8], register: u8) -> bool
    ensures { result ≡ fixed.has_number registers.now register }
{
    for other in registers {
        if *other == register {
            return true;
        }
    }
    false
}

/// Whether all these registers are in a list.
#[tactic(auto, using(crate::proofs::Loops::all_next, crate::proofs::Loops::all_wrong, crate::proofs::Loops::all_end))]
fn has_all(written: &[u8], registers: &[u8]) -> bool
    ensures { result ≡ list_all (fixed.has_number written.now) registers.now }
{
    for register in registers {
        if !has(written, *register) {
            return false;
        }
    }
    true
}

/// Puts a register that an instruction does not end.
#[tactic(auto, using(crate::proofs::Loops::is_kept, crate::proofs::Loops::is_lost))]
fn keep(behind: &mut Vec<u8>, insn: &TempInsn, register: u8) -> Result<(), AllocError>
    ensures { OnOk result (behind.new.items ≡ behind.old.items
        ++ filter (λ r. not (fixed.has_number (fixed.ended_of insn.now) r)) (register ∷ [])) }
{
    if !has(ended_registers(insn), register) {
        behind.push(register)?;
    }
    Ok(())
}

/// The registers that were written and not ended since, behind an instruction.
#[tactic(auto, using(crate::proofs::Loops::kept_next, crate::proofs::Loops::kept_end))]
fn written_behind(alloc: Global, written: &[u8], insn: &TempInsn) -> Result<Vec<u8>, AllocError>
    ensures { IfOk result (λ behind. behind.items ≡ fixed.written_behind written.now insn.now) }
{
    let mut behind = Vec::new(alloc);
    behind.extend_from_slice(fixed_writes(insn))?;
    for register in written {
        keep(&mut behind, insn, *register)?;
    }
    Ok(behind)
}

/// Whether it is so in a block, where some registers were written before.
#[tactic(auto, using(crate::proofs::Loops::block_next, crate::proofs::Loops::block_wrong))]
fn is_settled_block(
    alloc: Global,
    first: &[u8],
    block: &Block<TempInsn>,
) -> Result<bool, AllocError>
    ensures { IfOk result (λ settled. settled ≡ fixed.is_settled_block first.now block.now) }
{
    let mut written = Vec::new(alloc);
    written.extend_from_slice(first)?;
    for line in block.insns.iter() {
        let (_id, insn) = line;
        if !has_all(written.as_slice(), fixed_reads(insn)) {
            return Ok(false);
        }
        written = written_behind(alloc, written.as_slice(), insn)?;
    }
    Ok(true)
}

/// Whether it is so in each of these blocks, where nothing was written before.
#[tactic(auto, using(crate::proofs::Loops::all_next, crate::proofs::Loops::all_wrong, crate::proofs::Loops::all_end))]
fn are_settled_blocks(alloc: Global, blocks: &[Block<TempInsn>]) -> Result<bool, AllocError>
    ensures { IfOk result (λ settled. settled ≡ list_all (fixed.is_settled_block []) blocks.now) }
{
    for block in blocks {
        if !is_settled_block(alloc, &[], block)? {
            return Ok(false);
        }
    }
    Ok(true)
}

/// Whether each fixed register that an instruction of a function reads was written as fixed by an earlier instruction
/// of its block and not ended since, where the arguments count as written at the start of block 0. It fails only where
/// memory is short.
pub fn is_settled(alloc: Global, f: &Func<TempInsn>) -> Result<bool, AllocError>
    ensures { IfOk result (λ settled. settled ≡ fixed.is_settled f.now.params f.now.blocks) }
{
    match f.blocks.as_slice().split_first() {
        None => Ok(true),
        Some((first, rest)) => {
            if !is_settled_block(alloc, of_arguments(f.params), first)? {
                return Ok(false);
            }
            are_settled_blocks(alloc, rest)
        }
    }
}
