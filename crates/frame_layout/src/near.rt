//! The instructions of a function as lists, with each number of an argument place one that can be told from others.

ghost use Rattle.std.specs.Prelude.{◌≡◌, ◌++◌, map, IfOk};
ghost use Rattle.frame_emitter.specs.Settings.{near_insn, near_blocks};

use bk_containers::Seq;
use pass_core::block::Block;
use std::alloc::{AllocError, Global};
use suifvm_ir::program::MOST_PROGRAM_SIZE;
use temp_ir::insn::TempInsn;

/// An instruction with an argument place that is told from others: a number past the most arguments of a call counts as
/// that one.
fn near_insn(insn: TempInsn) -> TempInsn
    ensures { result ≡ near_insn insn }
{
    match insn {
        TempInsn::WriteArgument { number, source } => TempInsn::WriteArgument {
            number: number.min(MOST_PROGRAM_SIZE),
            source,
        },
        TempInsn::ReadArgument {
            destination,
            number,
        } => TempInsn::ReadArgument {
            destination,
            number: number.min(MOST_PROGRAM_SIZE),
        },
        _ => insn,
    }
}

/// The instructions of a block.
#[tactic(auto, using(crate::proofs::Instructions::insns_next))]
fn near_insns(alloc: Global, block: &Block<TempInsn>) -> Result<Seq<TempInsn>, AllocError>
    ensures { IfOk result (λ insns. insns ≡ map near_insn block.now) }
{
    let mut insns = Seq::new(alloc);
    for line in block.insns.iter() {
        let (_id, insn) = line;
        insns.push(near_insn(*insn))?;
    }
    Ok(insns)
}

/// The instructions of each block. It fails only where memory is short.
pub(crate) fn near_blocks(
    alloc: Global,
    blocks: &[Block<TempInsn>],
) -> Result<Seq<Seq<TempInsn>>, AllocError>
    ensures { IfOk result (λ lists. lists ≡ near_blocks blocks.now) }
{
    let mut lists = Seq::new(alloc);
    for block in blocks {
        lists.push(near_insns(alloc, block)?)?;
    }
    Ok(lists)
}
