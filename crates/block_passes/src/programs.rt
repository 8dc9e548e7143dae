//! Passes over programs.

ghost use Rattle.std.specs.Prelude.{◌+◌, ◌*◌, ◌^◌, ◌<◌, All, length, sum_by, IfOk};
ghost use Rattle.pass_core.specs.Functions.{count_of};
ghost use Rattle.temp_ir.specs.Programs.{TempFn};
ghost use Rattle.block_passes.specs.Clauses.{IsReached, IsSplit};
ghost use Rattle.block_passes.specs.Keeps.{Keeps};
ghost use Rattle.block_passes.specs.model.Limits.{CanBeSplit};

use crate::laws::keeps_is_transitive;
use crate::passes::{Coalesce, RemoveUnreachable, SplitEdges, run_each};
use block_coalescing::laws::coalesced_programs_keep_endings;
use std::alloc::{AllocError, Global};
use temp_ir::program::TempProgram;

/// The program whose functions are without the blocks to which no path leads.
fn remove_unreachable_blocks(alloc: Global, program: TempProgram) -> Result<TempProgram, AllocError>
    requires { All CanBeSplit program.functions }
    ensures keeps { IfOk result (λ p. Keeps 0 program p) }
    ensures reached { IfOk result (λ p. All IsReached p.functions) }
{
    let TempProgram { functions, globals } = program;
    let functions = run_each(alloc, &RemoveUnreachable, functions)?;
    Ok(TempProgram { functions, globals })
}

/// The program in whose functions copies between temporaries and dead instructions go.
fn coalesce_temporaries(alloc: Global, program: TempProgram) -> Result<TempProgram, AllocError>
    requires { All CanBeSplit program.functions }
    ensures keeps { IfOk result (λ p. Keeps 0 program p) }
    ensures reached { IfOk result (λ p. All IsReached program.functions → All IsReached p.functions) }
{
    coalesced_programs_keep_endings();
    let TempProgram { functions, globals } = program;
    let functions = run_each(alloc, &Coalesce, functions)?;
    Ok(TempProgram { functions, globals })
}

/// The program in whose functions the critical edges are split.
fn split_critical_edges(alloc: Global, program: TempProgram) -> Result<TempProgram, AllocError>
    requires { All CanBeSplit program.functions }
    ensures keeps { IfOk result (λ p. Keeps 1 program p) }
    ensures reached { IfOk result (λ p. All IsReached program.functions → All IsReached p.functions) }
    ensures split { IfOk result (λ p. All IsSplit p.functions) }
{
    let TempProgram { functions, globals } = program;
    let functions = run_each(alloc, &SplitEdges, functions)?;
    Ok(TempProgram { functions, globals })
}

/// All passes, one after the other: the program each of whose functions is without the blocks to which no path leads,
/// then without copies between temporaries and dead instructions, and then has its critical edges split; the objects of
/// static storage stay. It fails only where memory is short.
///
/// Five times the blocks of all functions and their instructions are below 2^30.
pub fn clean_and_split(alloc: Global, program: TempProgram) -> Result<TempProgram, AllocError>
    requires few { sum_by (λ (f : TempFn). 5 * length f.blocks + count_of f.blocks) program.functions < 2 ^ 30 }
    ensures keeps { IfOk result (λ p. Keeps 1 program p) }
    ensures reached { IfOk result (λ p. All IsReached p.functions) }
    ensures split { IfOk result (λ p. All IsSplit p.functions) }
    ensures labels { IfOk result (λ p. sum_by (λ (g : TempFn). length g.blocks + 2) p.functions < 2 ^ 30) }
{
    keeps_is_transitive();
    let reached = remove_unreachable_blocks(alloc, program)?;
    let coalesced = coalesce_temporaries(alloc, reached)?;
    let split = split_critical_edges(alloc, coalesced)?;
    Ok(split)
}
