//! Selected functions.

ghost use Rattle.std.specs.Prelude.{◌≡◌, ◌^◌, ◌≤◌, All, OnOk, IfOk};
ghost use Rattle.pass_core.specs.Functions.{AllInsns};
ghost use Rattle.suifvm_ir.specs.Programs.{VmFunction, function_size};
ghost use Rattle.selection_code.specs.Fields.{HasFields};
ghost use Rattle.alpha_select.specs.Selection.{IsSelectedFunction, AreSelected};
ghost use Rattle.alpha_select.specs.model.Limits.{IsWithinLimits};

use bk_containers::Seq;
use pass_core::function::Func;
use selection_code::blocks::function_blocks;
use selection_code::temporaries::SCRATCH_COUNT;
use std::alloc::{AllocError, Global};
use suifvm_ir::insn::VmInsn;
use temp_ir::copy::copy_objects;
use temp_ir::insn::TempInsn;

/// The selected function. It fails only where memory is short.
pub(crate) fn select_function(alloc: Global, f: &Func<VmInsn>) -> Result<Func<TempInsn>, AllocError>
    requires { IsWithinLimits f.now }
    ensures selected { IfOk result (λ g. IsSelectedFunction f.now g) }
    ensures fields { OnOk result (AllInsns HasFields f.now.blocks) }
{
    let name = f.name.copy()?;
    let objects = copy_objects(alloc, f.objects.as_slice())?;
    let blocks = function_blocks(alloc, f.params, f.blocks.as_slice())?;
    Ok(Func {
        name,
        params: f.params,
        temps: f.temps + SCRATCH_COUNT,
        objects,
        blocks,
    })
}

/// The selected functions. It fails only where memory is short.
pub(crate) fn select_functions(
    alloc: Global,
    functions: &[Func<VmInsn>],
) -> Result<Seq<Func<TempInsn>>, AllocError>
    requires { All IsWithinLimits functions.now }
    ensures selected { IfOk result (λ gs. AreSelected functions.now gs) }
    ensures fields { OnOk result (All (λ (f : VmFunction). AllInsns HasFields f.blocks) functions.now) }
{
    let mut selected = Seq::new(alloc);
    for f in functions {
        selected.push(select_function(alloc, f)?)?;
    }
    Ok(selected)
}
