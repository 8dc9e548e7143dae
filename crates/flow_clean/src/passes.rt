//! The passes over one function, and over one function after the other.

ghost use Rattle.std.specs.Prelude.{All, IfOk};
ghost use Rattle.std.specs.List.{AllZip};
ghost use Rattle.pass_core.specs.Functions.{AllInsns};
ghost use Rattle.bitvector_flow.specs.Lives.{HasFewRegisters};
ghost use Rattle.suifvm_ir.specs.Insns.{reads_of, writes_of};
ghost use Rattle.suifvm_ir.specs.Programs.{VmFunction};
ghost use Rattle.flow_clean.specs.Chains.{GoesBackToMarks};
ghost use Rattle.flow_clean.specs.Clean.{IsCleanOf};
ghost use Rattle.flow_clean.specs.Dead.{MeasuresFall};
ghost use Rattle.flow_clean.specs.model.Passes.{HasMarks, CanBeCleaned, ReadsOrigins, IsMadeClean};

use crate::chains::jump_chains;
use crate::copies::local_copies;
use crate::dead::dead_writes;
use bk_containers::Seq;
use pass_core::function::Func;
use std::alloc::{AllocError, Global};
use suifvm_ir::insn::VmInsn;

/// The function without its dead instructions, whose jumps then go on past those that are only instructions. It fails
/// only where memory is short.
fn clean_function(alloc: Global, f: &Func<VmInsn>) -> Result<Func<VmInsn>, AllocError>
    requires marks { GoesBackToMarks f.now.blocks }
    requires few { AllInsns (HasFewRegisters reads_of writes_of) f.now.blocks }
    ensures made { IfOk result (λ g. IsCleanOf f.now g) }
    ensures measures { IfOk result (λ g. MeasuresFall f.now g) }
{
    let live = dead_writes(alloc, f)?;
    let clean = jump_chains(alloc, live)?;
    Ok(clean)
}

/// A pass over one function.
pub(crate) trait FunctionPass {
    ghost needs: { VmFunction → Type 0 };

    ghost gives: { VmFunction → VmFunction → Type 0 };

    /// What the pass makes of a function. It fails only where memory is short.
    fn run(&self, alloc: Global, f: &Func<VmInsn>) -> Result<Func<VmInsn>, AllocError>
        requires { needs f.now }
        ensures { IfOk result (λ g. gives f.now g) };
}

/// Makes instructions read origins in place of copies.
#[derive(Drop)]
pub(crate) struct ReadOrigins;

impl FunctionPass for ReadOrigins {
    ghost needs = { HasMarks };

    ghost gives = { ReadsOrigins };

    fn run(&self, alloc: Global, f: &Func<VmInsn>) -> Result<Func<VmInsn>, AllocError> {
        let copied = local_copies(alloc, f)?;
        Ok(copied)
    }
}

/// Leaves dead instructions out, and then lets jumps go on.
#[derive(Drop)]
pub(crate) struct CleanUp;

impl FunctionPass for CleanUp {
    ghost needs = { CanBeCleaned };

    ghost gives = { IsMadeClean };

    fn run(&self, alloc: Global, f: &Func<VmInsn>) -> Result<Func<VmInsn>, AllocError> {
        let clean = clean_function(alloc, f)?;
        Ok(clean)
    }
}

/// What a pass makes of functions that are lent, by their numbers. It fails only where memory is short.
pub(crate) fn run_over<P: FunctionPass>(
    alloc: Global,
    pass: &P,
    functions: &[Func<VmInsn>],
) -> Result<Seq<Func<VmInsn>>, AllocError>
    requires { All P.needs functions.now }
    ensures { IfOk result (λ made. AllZip P.gives functions.now made) }
{
    let mut made = Seq::new(alloc);
    for f in functions {
        made.push(pass.run(alloc, f)?)?;
    }
    Ok(made)
}

/// What a pass makes of functions, by their numbers: each is let go as soon as the pass has read it. It fails only where
/// memory is short.
pub(crate) fn run_each<P: FunctionPass>(
    alloc: Global,
    pass: &P,
    functions: Seq<Func<VmInsn>>,
) -> Result<Seq<Func<VmInsn>>, AllocError>
    requires { All P.needs functions }
    ensures { IfOk result (λ made. AllZip P.gives functions made) }
{
    let mut made = Seq::new(alloc);
    for f in Seq::into_vec(functions) {
        made.push(pass.run(alloc, &f)?)?;
    }
    Ok(made)
}
