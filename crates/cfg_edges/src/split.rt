//! Functions in which no edge leads from a block with two successors to one with two predecessors.

ghost use Rattle.std.specs.Prelude.{◌≡◌, ◌<◌, ◌+◌, ◌*◌, ◌^◌, All, IsTrue, length, IfOk};
ghost use Rattle.pass_core.specs.Functions.{AllInsns, GoesToBlocks, EndsLate, stops, count_of};
ghost use Rattle.cfg.specs.Edges.{successors_from, predecessors};
ghost use Rattle.cfg_edges.specs.SplitFunctions.{IsSplitOf};
ghost use Rattle.cfg_edges.specs.model.SplitPart.{IsSplitPart};

use crate::marks::{numbers_of, splits_of};
use crate::pieces::put_all;
use bk_containers::Seq;
use cfg::{Graph, build};
use pass_core::Insn;
use pass_core::block::Block;
use pass_core::function::Func;
use std::alloc::{AllocError, Global};

/// The blocks of a function with this graph, where each block with a critical edge is followed by one that jumps to the
/// block that followed it, and by one that jumps to its target.
fn split_part<I: Insn>(
    alloc: Global,
    blocks: Seq<Block<I>>,
    graph: &Graph,
) -> Result<Seq<Block<I>>, AllocError>
    requires targets { AllInsns (GoesToBlocks I.targets (length blocks)) blocks }
    requires straight { All (EndsLate I.targets I.flows_on) blocks }
    requires stops { IsTrue (stops I.flows_on blocks) }
    requires few { length blocks < 2 ^ 30 }
    requires succ { graph.now.succ ≡ successors_from I.targets I.flows_on 0 blocks }
    requires pred { graph.now.pred ≡ predecessors graph.now.succ (length blocks) }
    ensures { IfOk result (λ part.
        IsSplitPart I.reads I.writes I.targets I.with_target I.jump_to I.flows_on blocks part) }
{
    let splits = splits_of(alloc, graph)?;
    let numbers = numbers_of(alloc, splits.as_slice())?;
    let part = put_all(alloc, blocks, splits.as_slice(), numbers.as_slice())?;
    Ok(part)
}

/// The function in which each edge that leads from a block with two successors to one with two predecessors leads by
/// way of a block of its own: behind such a block come one that jumps to the block that followed it, and one that
/// jumps to its target.
pub fn split_edges<I: Insn>(alloc: Global, f: Func<I>) -> Result<Func<I>, AllocError>
    requires { 5 * length f.blocks + count_of f.blocks < 2 ^ 30 }
    ensures { IfOk result (λ g. IsSplitOf I.targets I.with_target I.jump_to I.flows_on f g) }
{
    let graph = build(alloc, &f)?;
    let Func {
        name,
        params,
        temps,
        objects,
        blocks,
    } = f;
    let blocks = split_part(alloc, blocks, &graph)?;
    Ok(Func {
        name,
        params,
        temps,
        objects,
        blocks,
    })
}
