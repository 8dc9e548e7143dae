//! Selection of a program whose functions are let go one by one.

ghost use Rattle.std.specs.Prelude.{◌≡◌, ◌+◌, ◌*◌, ◌^◌, ◌<◌, ◌≤◌, All, length, sum_by, IfOk, OnOk};
ghost use Rattle.pass_core.specs.Functions.{AllInsns, count_of};
ghost use Rattle.suifvm_ir.specs.Programs.{VmFunction, program_size};
ghost use Rattle.temp_ir.specs.Programs.{TempFn};
ghost use Rattle.selection_code.specs.Fields.{HasFields};
ghost use Rattle.selection_laws.specs.Selected.{IsSelected};
ghost use Rattle.selection_laws.specs.Laws.{SelectionKeeps};
ghost use Rattle.alpha_select.specs.Selection.{AreSelected, CostLittle};
ghost use Rattle.alpha_select.specs.model.Limits.{IsWithinLimits};

use crate::functions::select_function;
use bk_containers::Seq;
use pass_core::function::Func;
use std::alloc::{AllocError, Global};
use suifvm_ir::insn::VmInsn;
use suifvm_ir::program::VmProgram;
use temp_ir::insn::TempInsn;
use temp_ir::program::TempProgram;

/// The selected functions of others, each of which is let go as soon as it is selected. It fails only where memory is
/// short.
fn select_each(
    alloc: Global,
    functions: Seq<Func<VmInsn>>,
) -> Result<Seq<Func<TempInsn>>, AllocError>
    requires { All IsWithinLimits functions }
    ensures selected { IfOk result (λ gs. AreSelected functions gs) }
    ensures fields { OnOk result (All (λ (f : VmFunction). AllInsns HasFields f.blocks) functions) }
{
    let mut selected = Seq::new(alloc);
    for f in Seq::into_vec(functions) {
        selected.push(select_function(alloc, &f)?)?;
    }
    Ok(selected)
}

/// The program that `select` gives, of one that is let go: each of its functions as soon as it is selected, so that the
/// two programs do not stand side by side. Its objects of static storage are moved. It fails only where memory is short.
pub fn select_in_turn(alloc: Global, program: VmProgram) -> Result<TempProgram, AllocError>
    requires size { program_size program.functions ≤ 2 ^ 24 }
    requires registers { All (λ (f : VmFunction). f.temps ≤ 2 ^ 24) program.functions }
    ensures selected { IfOk result (λ p. IsSelected program p) }
    ensures functions { IfOk result (λ p. AreSelected program.functions p.functions) }
    ensures globals { IfOk result (λ p. p.globals ≡ program.globals) }
    ensures keeps { IfOk result (λ p. SelectionKeeps program p) }
    ensures costs { IfOk result (λ p. CostLittle program.functions p.functions) }
    ensures few { IfOk result (λ p.
        sum_by (λ (g : TempFn). 5 * length g.blocks + count_of g.blocks) p.functions < 2 ^ 30) }
{
    let VmProgram { functions, globals } = program;
    let functions = select_each(alloc, functions)?;
    Ok(TempProgram { functions, globals })
}
