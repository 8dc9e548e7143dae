//! The lists of a function.

ghost use Rattle.std.specs.Prelude.{◌≡◌, IsTrue, IfOk};
ghost use Rattle.cfg.specs.Edges.{successors_from};
ghost use Rattle.temp_ir.specs.Insns.{targets_of, flows_on_of};
ghost use Rattle.temp_ir.specs.Fixed.{is_settled};
ghost use Rattle.alloc_plain_lists.specs.Spilled.{IsSpilledAllocationOf};
ghost use Rattle.alloc_plain_lists.specs.model.Lists.{HasPlainLists};

use crate::blocks::{all_registers, all_transfers, empty_maps};
use crate::edges::all_edges;
use alloc_model::allocation::Allocation;
use bk_containers::Seq;
use cfg::Graph;
use pass_core::function::Func;
use std::alloc::{AllocError, Global};
use temp_ir::copy_fn;
use temp_ir::insn::TempInsn;

/// The lists of a function with this flow graph. It fails only where memory is short.
fn made_lists(alloc: Global, f: &Func<TempInsn>, graph: &Graph) -> Result<Allocation, AllocError>
    requires { graph.now.succ ≡ successors_from targets_of flows_on_of 0 f.now.blocks }
    ensures { IfOk result (λ a. HasPlainLists f.now a) }
{
    let blocks = f.blocks.as_slice();
    let edges = all_edges(alloc, blocks, graph.succ.as_slice())?;
    let top = empty_maps(alloc, blocks)?;
    let bottom = empty_maps(alloc, blocks)?;
    let at = all_transfers(alloc, blocks)?;
    let regs = all_registers(alloc, blocks)?;
    let func = copy_fn(alloc, f)?;
    Ok(Allocation {
        func,
        top,
        bottom,
        at,
        regs,
        edges,
        journal: Seq::new(alloc),
    })
}

/// A faithful allocation of a function with this flow graph in which every temporary lives in its slot: it is loaded
/// before each instruction that reads it, and stored behind each that writes it. The function of the allocation has
/// the same name, numbers, objects, blocks and instructions, no map names a temporary, and nothing stands in the
/// journal yet. It fails only where memory is short.
pub fn spill_everywhere(
    alloc: Global,
    f: &Func<TempInsn>,
    graph: &Graph,
) -> Result<Allocation, AllocError>
    requires settled { IsTrue (is_settled f.now.params f.now.blocks) }
    requires graph { graph.now.succ ≡ successors_from targets_of flows_on_of 0 f.now.blocks }
    ensures { IfOk result (λ a. IsSpilledAllocationOf f.now a) }
{
    let lists = made_lists(alloc, f, graph)?;
    Ok(lists)
}
