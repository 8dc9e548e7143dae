//! What the instructions of a function name.

ghost use Rattle.std.specs.Prelude.{◌≡◌, ◌<◌, All, IsTrue, slice_get};
ghost use Rattle.std.specs.Bool.{OnTrue};
ghost use Rattle.pass_core.specs.Functions.{AllInsns};
ghost use Rattle.suifvm_ir.specs.Programs as programs;
ghost use Rattle.suifvm_ir.specs.Programs.{names_what_is_there};

use mem_objects::DataObject;
use pass_core::block::Block;
use pass_core::function::{Func, MemoryLocal};
use suifvm_ir::insn::{VmBuiltin, VmCallee, VmInsn};
use suifvm_ir::objects::place_reaches;
use suifvm_ir::types::Alignment;

/// How many arguments a built-in function takes.
fn builtin_parameters(builtin: VmBuiltin) -> usize
    ensures { result ≡ programs.builtin_parameters builtin }
{
    match builtin {
        VmBuiltin::PutChar => 1,
        VmBuiltin::GetChar => 0,
        VmBuiltin::Abort => 0,
        VmBuiltin::Exit => 1,
    }
}

/// Whether a function is there and takes so many arguments.
fn function_takes(functions: &[Func<VmInsn>], function: usize, count: usize) -> bool
    ensures { result ≡ programs.function_takes count (slice_get functions.now function) }
{
    match functions.get(function) {
        None => false,
        Some(function) => function.params as usize == count,
    }
}

/// Whether what is called is there and takes so many arguments.
fn callee_takes(functions: &[Func<VmInsn>], count: usize, callee: VmCallee) -> bool
    ensures { result ≡ programs.callee_takes functions.now count callee }
{
    match callee {
        VmCallee::Function(function) => function_takes(functions, function as usize, count),
        VmCallee::Builtin(builtin) => builtin_parameters(builtin) == count,
    }
}

/// An alignment in bytes.
fn alignment_bytes(align: Alignment) -> u64
    ensures bytes { result ≡ programs.alignment_bytes align }
    ensures some { 0 < result }
{
    match align {
        Alignment::One => 1,
        Alignment::Two => 2,
        Alignment::Four => 4,
        Alignment::Eight => 8,
    }
}

/// Whether what an instruction names is there.
fn insn_names(
    functions: &[Func<VmInsn>],
    globals: &[DataObject],
    objects: &[MemoryLocal],
    insn: &VmInsn,
) -> bool
    ensures { OnTrue result (IsTrue (names_what_is_there functions.now globals.now objects.now insn.now)) }
{
    match insn {
        VmInsn::LoadAddress { place, plus, .. } => place_reaches(globals, objects, *plus, *place),
        VmInsn::Copy { size, align, .. } => *size % alignment_bytes(*align) == 0,
        VmInsn::Call {
            callee,
            arguments,
            ..
        } => callee_takes(functions, arguments.len(), *callee),
        VmInsn::LoadConstant { .. } => true,
        VmInsn::Load { .. } => true,
        VmInsn::Store { .. } => true,
        VmInsn::Unary { .. } => true,
        VmInsn::Binary { .. } => true,
        VmInsn::Shift { .. } => true,
        VmInsn::Convert { .. } => true,
        VmInsn::Compare { .. } => true,
        VmInsn::Branch { .. } => true,
        VmInsn::Jump { .. } => true,
        VmInsn::Return { .. } => true,
        VmInsn::Mark => true,
        VmInsn::Nop => true,
    }
}

/// Whether what the instructions of a block name is there.
fn block_names(
    functions: &[Func<VmInsn>],
    globals: &[DataObject],
    objects: &[MemoryLocal],
    block: &Block<VmInsn>,
) -> bool
    ensures { OnTrue result (All (λ i. IsTrue (names_what_is_there functions.now globals.now objects.now i)) block.now) }
{
    for line in block.insns.iter() {
        let (_id, insn) = line;
        if !insn_names(functions, globals, objects, insn) {
            return false;
        }
    }
    true
}

/// Whether what the instructions of blocks name is there.
pub(crate) fn all_names(
    functions: &[Func<VmInsn>],
    globals: &[DataObject],
    objects: &[MemoryLocal],
    blocks: &[Block<VmInsn>],
) -> bool
    ensures { OnTrue result (AllInsns (λ i. IsTrue (names_what_is_there functions.now globals.now objects.now i)) blocks.now) }
{
    for block in blocks {
        if !block_names(functions, globals, objects, block) {
            return false;
        }
    }
    true
}
