//! The code of units.

ghost use Rattle.std.specs.Prelude.{◌≡◌, ◌≤◌, ◌^◌, All, IfOk};
ghost use Rattle.c_typed_tree.specs.Weight.{unit_weight};
ghost use Rattle.c_typing_weight.specs.Limits.{most_weight};
ghost use Rattle.suifvm_ir.specs.Programs.{program_size};
ghost use Rattle.lowering.specs.Lowered.{IsLowered, AreLowered, AreWithinWeight};
ghost use Rattle.lowering.specs.model.Premises.{CanBeLowered};

use bk_containers::Seq;
use c_typed_tree::c_lawful_unit::LawfulUnit;
use c_typed_tree::{StructDef, TypedFn};
use lowering_functions::lower_function;
use mem_objects::copy_objects;
use pass_core::function::Func;
use std::alloc::{AllocError, Global};
use suifvm_ir::insn::VmInsn;
use suifvm_ir::program::VmProgram;

/// The code of one function.
pub(crate) fn one(
    alloc: Global,
    structs: &[StructDef],
    f: &TypedFn,
) -> Result<Func<VmInsn>, AllocError>
    requires { CanBeLowered structs.now f.now }
    ensures { IfOk result (λ g. IsLowered structs.now f.now g) }
{
    let g = lower_function(alloc, structs, f)?;
    Ok(g)
}

/// The code of all functions, by their numbers.
fn all_functions(
    alloc: Global,
    structs: &[StructDef],
    list: &[TypedFn],
) -> Result<Seq<Func<VmInsn>>, AllocError>
    requires { All (CanBeLowered structs.now) list.now }
    ensures { IfOk result (λ fs. AreLowered structs.now list.now fs) }
{
    let mut functions = Seq::new(alloc);
    for f in list {
        functions.push(one(alloc, structs, f)?)?;
    }
    Ok(functions)
}

/// The program of a lawful unit: each function is the code of the unit's function with its number, by its weight it has
/// few registers, few arguments in a call and little cost, and the objects of static storage are the unit's. It fails
/// only where memory is short.
///
/// The weight of the unit is at most `MOST_WEIGHT` (`c_typing_weight`).
pub fn lower(alloc: Global, typed: &LawfulUnit) -> Result<VmProgram, AllocError>
    requires { unit_weight typed.now.unit ≤ most_weight }
    ensures functions { IfOk result (λ p. AreLowered typed.now.unit.structs typed.now.unit.functions p.functions) }
    ensures globals { IfOk result (λ p. p.globals ≡ typed.now.unit.globals) }
    ensures weights { IfOk result (λ p. AreWithinWeight typed.now.unit.structs typed.now.unit.functions p.functions) }
    ensures size { IfOk result (λ p. program_size p.functions ≤ 2 ^ 24) }
{
    let unit = &typed.unit;
    let functions = all_functions(alloc, unit.structs.as_slice(), unit.functions.as_slice())?;
    let globals = copy_objects(alloc, unit.globals.as_slice())?;
    Ok(VmProgram { functions, globals })
}
