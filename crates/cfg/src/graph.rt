//! The flow graph of a function.

ghost use Rattle.std.specs.Prelude.{◌≡◌, length, IfOk};
ghost use Rattle.cfg.specs.Edges.{successors_from, predecessors};

use crate::predecessors::predecessor_lists;
use crate::successors::successor_lists;
use bk_containers::Seq;
use pass_core::Insn;
use pass_core::function::Func;
use std::alloc::{AllocError, Global};

/// The edges of a function, by the number of each block.
#[derive(Debug, Drop)]
pub struct Graph {
    /// Where each block goes on: the target of its jump or branch, and then the next block where it has no instruction
    /// or the last one goes on. A branch to the next block gives it twice.
    pub succ: Seq<Seq<u32>>,
    /// The blocks with an edge to each block, by rising number, once for each edge.
    pub pred: Seq<Seq<u32>>,
}

/// The flow graph of a function.
pub fn build<I: Insn>(alloc: Global, f: &Func<I>) -> Result<Graph, AllocError>
    ensures succ { IfOk result (λ graph. graph.succ ≡ successors_from I.targets I.flows_on 0 f.now.blocks) }
    ensures pred { IfOk result (λ graph. graph.pred ≡ predecessors graph.succ (length f.now.blocks)) }
{
    let succ = successor_lists(alloc, f.blocks.as_slice())?;
    let pred = predecessor_lists(alloc, succ.as_slice())?;
    Ok(Graph { succ, pred })
}
