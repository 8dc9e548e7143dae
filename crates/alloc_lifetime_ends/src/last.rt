//! The last points of all temporaries.

ghost use Rattle.std.specs.Prelude.{◌≡◌, ◌<◌, ◌^◌, length, replicate, IfOk};
ghost use Rattle.pass_core.specs.Functions.{AllInsns, UsesRegisters, count_of};
ghost use Rattle.temp_ir.specs.Insns.{reads_of, writes_of, targets_of, flows_on_of};
ghost use Rattle.bitvector_flow.specs.Flows.{AreBounded};
ghost use Rattle.bitvector_flow.specs.Lives.{AreLive};
ghost use Rattle.alloc_lifetime_ends.specs.Wanted.{wants_of};
ghost use Rattle.alloc_lifetime_ends.specs.Ends.{AreEnds};
ghost use Rattle.alloc_lifetime_ends.specs.model.Raised.{IsRaised, IsPresentIn};

use crate::insns::raise_block;
use bitvector_flow::Flow;
use bk_bits::BitSet;
use bk_containers::Seq;
use pass_core::block::Block;
use pass_core::function::Func;
use std::alloc::{AllocError, Global};
use temp_ir::insn::TempInsn;

/// Raises the last points of what each block reads and writes, and of what is live at its bottom.
fn raise_blocks(ends: &mut [u32], blocks: &[Block<TempInsn>], bottoms: &[BitSet])
    requires few { count_of blocks.now < 2 ^ 30 }
    requires inside { AllInsns (UsesRegisters reads_of writes_of (length ends.now)) blocks.now }
    requires bottoms { AreBounded (length blocks.now) (length ends.now) bottoms.now }
    requires few_ends { length ends.now < 2 ^ 32 }
    ensures { IsRaised (IsPresentIn blocks.now bottoms.now (length blocks.now)) ends.old ends.new }
{
    let mut number = 0;
    for (place, block) in blocks.iter().enumerate() {
        number = raise_block(ends, block, &bottoms[place], number);
    }
}

/// So many points, all 0.
fn no_points(alloc: Global, count: usize) -> Result<Vec<u32>, AllocError>
    ensures { IfOk result (λ ends. ends.items ≡ replicate count 0) }
{
    let mut ends = Vec::new(alloc);
    ends.resize(count, 0)?;
    Ok(ends)
}

/// The last point of each temporary of a function, where these sets have what is live in it; 0 for one that is present
/// at no point. It fails only where memory is short.
pub fn last_points(alloc: Global, f: &Func<TempInsn>, live: &Flow) -> Result<Seq<u32>, AllocError>
    requires { AreLive reads_of writes_of targets_of flows_on_of f.now.blocks f.now.temps live.now.top live.now.bottom }
    ensures { IfOk result (λ ends. AreEnds (wants_of f.now.blocks live.now.bottom) f.now.temps ends) }
{
    let mut ends = no_points(alloc, f.temps as usize)?;
    raise_blocks(
        ends.as_mut_slice(),
        f.blocks.as_slice(),
        live.bottom.as_slice(),
    );
    Ok(Seq::from_vec(ends))
}
