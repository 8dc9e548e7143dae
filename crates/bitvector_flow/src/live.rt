//! Which registers are live.

ghost use Rattle.std.specs.Prelude.{◌≡◌, IfOk};
ghost use Rattle.pass_core.specs.Functions.{AllInsns};
ghost use Rattle.cfg.specs.Edges.{successors_from};
ghost use Rattle.bitvector_flow.specs.Lives.{HasFewRegisters, AreLive};

use crate::blocks::{BlockSets, block_sets};
use crate::flow::Flow;
use crate::settling::{Solution, solve_sets};
use bk_containers::Seq;
use cfg::Graph;
use pass_core::Insn;
use pass_core::function::Func;
use std::alloc::{AllocError, Global};

/// The registers that are live at the top and at the bottom of each block of a function with this flow graph: those of
/// which some path from there reads one before it writes it. It fails only where memory is short.
pub fn liveness<I: Insn>(alloc: Global, f: &Func<I>, graph: &Graph) -> Result<Flow, AllocError>
    requires graph { graph.now.succ ≡ successors_from I.targets I.flows_on 0 f.now.blocks }
    requires few { AllInsns (HasFewRegisters I.reads I.writes) f.now.blocks }
    ensures { IfOk result (λ flow.
        AreLive I.reads I.writes I.targets I.flows_on f.now.blocks f.now.temps flow.top flow.bottom) }
{
    let BlockSets { reads, writes } = block_sets(alloc, f.blocks.as_slice(), f.temps)?;
    let Solution { outs, ins } = solve_sets(
        alloc,
        graph.succ.as_slice(),
        reads,
        writes.as_slice(),
        f.temps,
        true,
    )?;
    Ok(Flow {
        top: Seq::from_vec(outs),
        bottom: Seq::from_vec(ins),
    })
}
