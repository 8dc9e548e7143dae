//! Programs without copies, and clean ones.

ghost use Rattle.std.specs.Prelude.{◌^◌, ◌≤◌, IfOk};
ghost use Rattle.suifvm_ir.specs.Programs.{program_size};
ghost use Rattle.flow_clean.specs.Programs.{IsProgramWithoutCopiesOf, IsCleanProgramOf};

use crate::passes::{CleanUp, ReadOrigins, run_each, run_over};
use mem_objects::copy_objects;
use std::alloc::{AllocError, Global};
use suifvm_ir::program::VmProgram;

/// The program whose instructions read origins in place of copies. Each function is let go as soon as it is read. It
/// fails only where memory is short.
pub fn without_copies(alloc: Global, vm: VmProgram) -> Result<VmProgram, AllocError>
    ensures { IfOk result (IsProgramWithoutCopiesOf vm) }
{
    let VmProgram { functions, globals } = vm;
    let functions = run_each(alloc, &ReadOrigins, functions)?;
    Ok(VmProgram { functions, globals })
}

/// The program without dead instructions, whose jumps go on past those that are only instructions. It fails only where
/// memory is short.
pub fn clean(alloc: Global, copied: &VmProgram) -> Result<VmProgram, AllocError>
    requires { program_size copied.now.functions ≤ 2 ^ 24 }
    ensures { IfOk result (IsCleanProgramOf copied.now) }
{
    let functions = run_over(alloc, &CleanUp, copied.functions.as_slice())?;
    let globals = copy_objects(alloc, copied.globals.as_slice())?;
    Ok(VmProgram { functions, globals })
}

/// The same, where each function is let go as soon as it is clean.
pub fn clean_in_turn(alloc: Global, copied: VmProgram) -> Result<VmProgram, AllocError>
    requires { program_size copied.functions ≤ 2 ^ 24 }
    ensures { IfOk result (IsCleanProgramOf copied) }
{
    let VmProgram { functions, globals } = copied;
    let functions = run_each(alloc, &CleanUp, functions)?;
    Ok(VmProgram { functions, globals })
}
