//! Selected programs.

ghost use Rattle.std.specs.Prelude.{◌≡◌, ◌+◌, ◌*◌, ◌^◌, ◌<◌, ◌≤◌, All, length, sum_by, IfOk};
ghost use Rattle.pass_core.specs.Functions.{count_of};
ghost use Rattle.suifvm_ir.specs.Programs.{VmFunction, program_size};
ghost use Rattle.temp_ir.specs.Programs.{TempFn};
ghost use Rattle.selection_laws.specs.Selected.{IsSelected};
ghost use Rattle.selection_laws.specs.Laws.{SelectionKeeps};
ghost use Rattle.alpha_select.specs.Selection.{AreSelected, CostLittle};

use crate::functions::select_functions;
use mem_objects::copy_objects;
use std::alloc::{AllocError, Global};
use suifvm_ir::program::VmProgram;
use temp_ir::program::TempProgram;

/// The selected program: it has the endings of the program, unless they are Undefined, and no others. Its functions are
/// settled, and their backward jumps go to blocks that begin with a mark. The bulk of each, with all that splitting its
/// edges may add, is at most the cost of the function that was given. It fails only where memory is short.
pub fn select(alloc: Global, program: &VmProgram) -> Result<TempProgram, AllocError>
    requires size { program_size program.now.functions ≤ 2 ^ 24 }
    requires registers { All (λ (f : VmFunction). f.temps ≤ 2 ^ 24) program.now.functions }
    ensures selected { IfOk result (λ p. IsSelected program.now p) }
    ensures functions { IfOk result (λ p. AreSelected program.now.functions p.functions) }
    ensures globals { IfOk result (λ p. p.globals ≡ program.now.globals) }
    ensures keeps { IfOk result (λ p. SelectionKeeps program.now p) }
    ensures costs { IfOk result (λ p. CostLittle program.now.functions p.functions) }
    ensures few { IfOk result (λ p.
        sum_by (λ (g : TempFn). 5 * length g.blocks + count_of g.blocks) p.functions < 2 ^ 30) }
{
    let functions = select_functions(alloc, program.functions.as_slice())?;
    let globals = copy_objects(alloc, program.globals.as_slice())?;
    Ok(TempProgram { functions, globals })
}
