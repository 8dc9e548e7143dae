//! Allocators.

ghost use Rattle.std.specs.Prelude.{All, IsTrue, IfOk};
ghost use Rattle.std.specs.List.{AllZip};
ghost use Rattle.temp_ir.specs.Fixed.{is_settled};
ghost use Rattle.temp_ir.specs.Programs.{TempFn};
ghost use Rattle.alloc_model.specs.declared.allocation.Allocation.{Allocation};
ghost use Rattle.alloc_rules.specs.Allocations.{IsAllocationOf, AreAllocationsOf};

use alloc_model::allocation::Allocation;
use pass_core::function::Func;
use std::alloc::{AllocError, Global};
use temp_ir::insn::TempInsn;
use temp_ir::program::TempProgram;

/// An allocator: what it gives for a function is an allocation of it.
pub trait Allocates {
    ghost gives: { TempFn → Allocation → Type 0 };

    /// An allocation of a function. It fails only where memory is short.
    fn allocation(&self, alloc: Global, f: &Func<TempInsn>) -> Result<Allocation, AllocError>
        requires { IsTrue (is_settled f.now.params f.now.blocks) }
        ensures { IfOk result (λ a. gives f.now a) };

    ghost lawful: { (f : TempFn) (a : Allocation) → gives f a → IsAllocationOf f a };
}

/// Those of some functions. It fails only where memory is short.
#[tactic(auto, using(crate::proofs::Allocations::functions_next, crate::proofs::Allocations::functions_end))]
fn allocate_all<A: Allocates>(
    alloc: Global,
    allocator: &A,
    functions: &[Func<TempInsn>],
) -> Result<Vec<Allocation>, AllocError>
    requires { All (λ (f : TempFn). IsTrue (is_settled f.params f.blocks)) functions.now }
    ensures { IfOk result (λ allocations. AllZip A.gives functions.now allocations.items) }
{
    let mut allocations = Vec::new(alloc);
    for f in functions {
        allocations.push(allocator.allocation(alloc, f)?)?;
    }
    Ok(allocations)
}

/// An allocation for each function of a program, in their order, as an allocator gives them. It fails only where memory
/// is short.
#[tactic(auto, using(crate::proofs::Allocations::all_settled))]
pub fn allocate<A: Allocates>(
    alloc: Global,
    allocator: &A,
    program: &TempProgram,
) -> Result<Vec<Allocation>, AllocError>
    ensures allocations { IfOk result (λ allocations. AreAllocationsOf program.now.functions allocations.items) }
    ensures gives { IfOk result (λ allocations. AllZip A.gives program.now.functions allocations.items) }
{
    let allocations = allocate_all(alloc, allocator, program.functions.as_slice())?;
    Ok(allocations)
}
