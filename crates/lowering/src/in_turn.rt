//! Lowering of a unit whose functions are let go one by one.

ghost use Rattle.std.specs.Prelude.{◌≡◌, ◌≤◌, ◌^◌, All, IfOk};
ghost use Rattle.c_typed_tree.specs.Weight.{unit_weight};
ghost use Rattle.c_typing_weight.specs.Limits.{most_weight};
ghost use Rattle.suifvm_ir.specs.Programs.{program_size};
ghost use Rattle.lowering.specs.Lowered.{AreLowered, AreWithinWeight};
ghost use Rattle.lowering.specs.model.Premises.{CanBeLowered};

use crate::units::one;
use bk_containers::Seq;
use c_typed_tree::c_lawful_unit::LawfulUnit;
use c_typed_tree::{StructDef, TypedFn, TypedUnit};
use pass_core::function::Func;
use std::alloc::{AllocError, Global};
use suifvm_ir::insn::VmInsn;
use suifvm_ir::program::VmProgram;

/// The code of functions, by their numbers, each of which is let go as soon as it is lowered.
fn lower_each(
    alloc: Global,
    structs: &[StructDef],
    list: Seq<TypedFn>,
) -> Result<Seq<Func<VmInsn>>, AllocError>
    requires { All (CanBeLowered structs.now) list }
    ensures { IfOk result (λ fs. AreLowered structs.now list fs) }
{
    let mut functions = Seq::new(alloc);
    for f in Seq::into_vec(list) {
        let made = one(alloc, structs, &f);
        drop(f);
        functions.push(made?)?;
    }
    Ok(functions)
}

/// The program that `lower` gives, of a unit that is let go: each of its functions as soon as it is lowered, so that the
/// unit and the program do not stand side by side. Its objects of static storage are moved. It fails only where memory
/// is short.
///
/// The weight of the unit is at most `MOST_WEIGHT` (`c_typing_weight`).
pub fn lower_in_turn(alloc: Global, typed: LawfulUnit) -> Result<VmProgram, AllocError>
    requires { unit_weight typed.unit ≤ most_weight }
    ensures functions { IfOk result (λ p. AreLowered typed.unit.structs typed.unit.functions p.functions) }
    ensures globals { IfOk result (λ p. p.globals ≡ typed.unit.globals) }
    ensures weights { IfOk result (λ p. AreWithinWeight typed.unit.structs typed.unit.functions p.functions) }
    ensures size { IfOk result (λ p. program_size p.functions ≤ 2 ^ 24) }
{
    let LawfulUnit { unit } = typed;
    let TypedUnit {
        structs,
        globals,
        functions,
    } = unit;
    let functions = lower_each(alloc, structs.as_slice(), functions)?;
    Ok(VmProgram { functions, globals })
}
