//! Functions without blocks to which no path leads.

ghost use Rattle.std.specs.Prelude.{◌<◌, ◌^◌, All, IsTrue, length, IfOk};
ghost use Rattle.pass_core.specs.Functions.{AllInsns, GoesToBlocks, EndsLate, stops};
ghost use Rattle.cfg.specs.ReachedParts.{IsReachedPartOf};
ghost use Rattle.cfg.specs.model.ReachedPart.{IsReachedPart};

use crate::renumber::{marked_blocks, numbers_of};
use crate::search::reached_marks;
use crate::successors::successor_lists;
use bk_containers::Seq;
use pass_core::Insn;
use pass_core::block::Block;
use pass_core::function::Func;
use std::alloc::{AllocError, Global};

/// The blocks to which a path leads from block 0, in their order and with their new numbers as targets.
fn reached_part<I: Insn>(alloc: Global, blocks: Seq<Block<I>>) -> Result<Seq<Block<I>>, AllocError>
    requires targets { AllInsns (GoesToBlocks I.targets (length blocks)) blocks }
    requires straight { All (EndsLate I.targets I.flows_on) blocks }
    requires stops { IsTrue (stops I.flows_on blocks) }
    requires few { length blocks < 2 ^ 30 }
    ensures { IfOk result (λ part. IsReachedPart I.reads I.writes I.targets I.with_target I.flows_on blocks part) }
{
    let followers = successor_lists(alloc, blocks.as_slice())?;
    let marks = reached_marks(alloc, followers.as_slice())?;
    let numbers = numbers_of(alloc, marks.as_slice())?;
    let part = marked_blocks(alloc, blocks, marks.as_slice(), numbers.as_slice())?;
    Ok(part)
}

/// The function without the blocks to which no path leads from block 0. The others stay in their order.
pub fn remove_unreachable<I: Insn>(alloc: Global, f: Func<I>) -> Result<Func<I>, AllocError>
    ensures { IfOk result (λ g. IsReachedPartOf I.targets I.with_target I.flows_on f g) }
{
    let Func {
        name,
        params,
        temps,
        objects,
        blocks,
    } = f;
    let blocks = reached_part(alloc, blocks)?;
    Ok(Func {
        name,
        params,
        temps,
        objects,
        blocks,
    })
}
