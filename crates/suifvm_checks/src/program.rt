//! Programs.

ghost use Rattle.std.specs.Prelude.{◌≡◌, ◌≤◌, true, All, IfSome};
ghost use Rattle.std.specs.Bool.{OnTrue};
ghost use Rattle.suifvm_ir.specs.Programs as programs;
ghost use Rattle.suifvm_ir.specs.Programs.{main_count, IsLawfulFunction};

use crate::marks::all_go_to_marks;
use crate::names::all_names;
use bk_containers::Seq;
use mem_object_checks::are_lawful_objects;
use mem_objects::DataObject;
use pass_core::function::Func;
use suifvm_ir::insn::VmInsn;
use suifvm_ir::program::VmProgram;

/// Whether a function is the one where a program begins.
fn is_main(function: &Func<VmInsn>) -> bool
    ensures { result ≡ programs.is_main function.now }
{
    function.name.as_slice() == b"main".as_slice()
}

/// Whether exactly one function is `main`.
pub(crate) fn has_one_main(functions: &[Func<VmInsn>]) -> bool
    ensures { OnTrue result (main_count functions.now ≡ 1) }
{
    let mut count = 0_u64;
    for function in functions {
        if is_main(function) {
            count += 1;
        }
    }
    count == 1
}

/// Whether a function has registers for its parameters, and none where it is `main`.
fn has_parameters(function: &Func<VmInsn>) -> bool
    ensures registers { OnTrue result (function.now.params ≤ function.now.temps) }
    ensures main { OnTrue result (programs.is_main function.now ≡ true → function.now.params ≡ 0) }
{
    function.params <= function.temps && (!is_main(function) || function.params == 0)
}

/// Whether a function is one of a program with these functions and objects.
fn is_lawful(functions: &[Func<VmInsn>], globals: &[DataObject], function: &Func<VmInsn>) -> bool
    ensures { OnTrue result (IsLawfulFunction functions.now globals.now function.now) }
{
    if !has_parameters(function) {
        return false;
    }
    let blocks = function.blocks.as_slice();
    if !all_names(functions, globals, function.objects.as_slice(), blocks) {
        return false;
    }
    all_go_to_marks(blocks)
}

/// Whether all these functions are of a program with these objects.
pub(crate) fn are_lawful(functions: &[Func<VmInsn>], globals: &[DataObject]) -> bool
    ensures { OnTrue result (All (IsLawfulFunction functions.now globals.now) functions.now) }
{
    for function in functions {
        if !is_lawful(functions, globals, function) {
            return false;
        }
    }
    true
}

/// The program of these functions and objects of static storage, where they are lawful.
pub fn program_of(functions: Seq<Func<VmInsn>>, globals: Seq<DataObject>) -> Option<VmProgram>
    ensures functions { IfSome result (λ program. program.functions ≡ functions) }
    ensures globals { IfSome result (λ program. program.globals ≡ globals) }
{
    if functions.len() > u32::MAX as usize || !has_one_main(functions.as_slice()) {
        return None;
    }
    if !are_lawful_objects(globals.as_slice()) {
        return None;
    }
    if !are_lawful(functions.as_slice(), globals.as_slice()) {
        return None;
    }
    Some(VmProgram { functions, globals })
}
