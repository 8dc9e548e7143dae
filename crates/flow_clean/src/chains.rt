//! Functions whose jumps go on past those that are the only instructions of their blocks.

ghost use Rattle.std.specs.Prelude.{◌≡◌, ◌<◌, ◌^◌, All, length, map, IfOk};
ghost use Rattle.pass_core.specs.Functions.{AllInsns, EndsLate};
ghost use Rattle.suifvm_ir.specs.Insns.{targets_of, flows_on_of};
ghost use Rattle.flow_clean.specs.Chains.{retargeted, GoesBackToMarks, IsChainedOf, MeasuresStay};

use crate::ends::ends_of;
use bk_containers::Seq;
use cfg::renumber::renumber_block;
use pass_core::block::Block;
use pass_core::function::Func;
use std::alloc::{AllocError, Global};
use suifvm_ir::insn::VmInsn;

/// Replaces each target by its end.
fn retarget_all(alloc: Global, blocks: &mut [Block<VmInsn>], ends: &[u32])
    requires within { AllInsns (λ i. All (λ target. target < length ends.now) (targets_of i)) blocks.old }
    requires straight { All (EndsLate targets_of flows_on_of) blocks.old }
    ensures { blocks.new ≡ map (map (retargeted ends.now)) blocks.old }
{
    for at in 0..blocks.len() {
        renumber_block(alloc, &mut blocks[at], ends);
    }
}

/// The function in which each jump or branch to a block whose only instruction is a jump goes to the block to which
/// that leads. Nothing else changes. It fails only where memory is short.
pub fn jump_chains(alloc: Global, f: Func<VmInsn>) -> Result<Func<VmInsn>, AllocError>
    requires { GoesBackToMarks f.blocks }
    ensures made { IfOk result (λ g. IsChainedOf f g) }
    ensures measures { IfOk result (λ g. MeasuresStay f g) }
{
    let ends = ends_of(alloc, f.blocks.as_slice())?;
    let Func {
        name,
        params,
        temps,
        objects,
        blocks,
    } = f;
    let mut blocks = Seq::into_vec(blocks);
    retarget_all(alloc, blocks.as_mut_slice(), ends.as_slice());
    Ok(Func {
        name,
        params,
        temps,
        objects,
        blocks: Seq::from_vec(blocks),
    })
}
