//! Passes over the blocks of one function, and of one function after the other.

ghost use Rattle.std.specs.Prelude.{All, IfOk};
ghost use Rattle.std.specs.List.{AllZip};
ghost use Rattle.temp_ir.specs.Programs.{TempFn};
ghost use Rattle.block_passes.specs.model.Limits.{CanBeSplit};
ghost use Rattle.block_passes.specs.model.Walks.{IsReachedPart, HasFewerCopies, HasSplitEdges};

use bk_containers::Seq;
use block_coalescing::coalesce;
use cfg::remove_unreachable;
use cfg_edges::split_edges;
use pass_core::function::Func;
use std::alloc::{AllocError, Global};
use temp_ir::insn::TempInsn;

/// A pass over the blocks of one function.
pub(crate) trait FunctionPass {
    ghost gives: { TempFn → TempFn → Type 0 };

    /// What the pass makes of a function. It fails only where memory is short.
    fn run(&self, alloc: Global, f: Func<TempInsn>) -> Result<Func<TempInsn>, AllocError>
        requires { CanBeSplit f }
        ensures { IfOk result (λ g. gives f g) };
}

/// Removes the blocks to which no path leads.
#[derive(Drop)]
pub(crate) struct RemoveUnreachable;

impl FunctionPass for RemoveUnreachable {
    ghost gives = { IsReachedPart };

    fn run(&self, alloc: Global, f: Func<TempInsn>) -> Result<Func<TempInsn>, AllocError> {
        let reached = remove_unreachable(alloc, f)?;
        Ok(reached)
    }
}

/// Lets copies between temporaries and dead instructions go.
#[derive(Drop)]
pub(crate) struct Coalesce;

impl FunctionPass for Coalesce {
    ghost gives = { HasFewerCopies };

    fn run(&self, alloc: Global, f: Func<TempInsn>) -> Result<Func<TempInsn>, AllocError> {
        let coalesced = coalesce(alloc, f)?;
        Ok(coalesced)
    }
}

/// Splits the critical edges.
#[derive(Drop)]
pub(crate) struct SplitEdges;

impl FunctionPass for SplitEdges {
    ghost gives = { HasSplitEdges };

    fn run(&self, alloc: Global, f: Func<TempInsn>) -> Result<Func<TempInsn>, AllocError> {
        let split = split_edges(alloc, f)?;
        Ok(split)
    }
}

/// What a pass makes of functions, by their numbers: each is given up as soon as the pass is done with it. It fails
/// only where memory is short.
pub(crate) fn run_each<P: FunctionPass>(
    alloc: Global,
    pass: &P,
    functions: Seq<Func<TempInsn>>,
) -> Result<Seq<Func<TempInsn>>, AllocError>
    requires { All CanBeSplit functions }
    ensures { IfOk result (λ made. AllZip P.gives functions made) }
{
    let mut made = Seq::new(alloc);
    for f in Seq::into_vec(functions) {
        made.push(pass.run(alloc, f)?)?;
    }
    Ok(made)
}
