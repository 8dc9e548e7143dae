//! How large a program is.

ghost use Rattle.std.specs.Prelude.{◌≡◌, ◌+◌, ◌^◌, ◌≤◌, All, length, sum_by, IfSome};
ghost use Rattle.std.specs.Bool.{OnTrue};
ghost use Rattle.pass_core.specs.Functions.{count_of};
ghost use Rattle.suifvm_ir.specs.Programs.{VmFunction, weight_of, function_size, program_size};

use pass_core::block::Block;
use pass_core::function::Func;
use suifvm_ir::insn::VmInsn;
use suifvm_ir::program::{MOST_PROGRAM_SIZE, VmProgram};

/// What counts for an instruction besides itself is taken from a number, if so much is there.
fn behind_weight(left: u64, insn: &VmInsn) -> Option<u64>
    ensures { IfSome result (λ rest. rest + weight_of insn.now ≡ left) }
{
    match insn {
        VmInsn::Copy { size, .. } => left.checked_sub(*size)?.checked_sub(*size),
        VmInsn::Call { arguments, .. } => left.checked_sub(arguments.len() as u64),
        VmInsn::LoadConstant { .. } => Some(left),
        VmInsn::LoadAddress { .. } => Some(left),
        VmInsn::Load { .. } => Some(left),
        VmInsn::Store { .. } => Some(left),
        VmInsn::Unary { .. } => Some(left),
        VmInsn::Binary { .. } => Some(left),
        VmInsn::Shift { .. } => Some(left),
        VmInsn::Convert { .. } => Some(left),
        VmInsn::Compare { .. } => Some(left),
        VmInsn::Branch { .. } => Some(left),
        VmInsn::Jump { .. } => Some(left),
        VmInsn::Return { .. } => Some(left),
        VmInsn::Mark => Some(left),
        VmInsn::Nop => Some(left),
    }
}

/// The instructions of a block are taken from a number with what counts for them.
#[tactic(auto, using(crate::proofs::Sizes::insn_turn, crate::proofs::Sizes::insns_end))]
fn behind_block(left: u64, block: &Block<VmInsn>) -> Option<u64>
    ensures { IfSome result (λ rest. rest + length block.now + sum_by weight_of block.now ≡ left) }
{
    let mut rest = left;
    for line in block.insns.iter() {
        let (_id, insn) = line;
        rest = behind_weight(rest, insn)?.checked_sub(1)?;
    }
    Some(rest)
}

/// The instructions of blocks are taken from a number with what counts for them.
pub fn behind_blocks(left: u64, blocks: &[Block<VmInsn>]) -> Option<u64>
    ensures { IfSome result (λ rest.
        rest + count_of blocks.now + sum_by (λ block. sum_by weight_of block) blocks.now ≡ left) }
{
    let mut rest = left;
    for block in blocks {
        rest = behind_block(rest, block)?;
    }
    Some(rest)
}

/// The size of a function is taken from a number.
fn behind_function(left: u64, function: &Func<VmInsn>) -> Option<u64>
    ensures { IfSome result (λ rest. rest + function_size function.now ≡ left) }
{
    let blocks = function.blocks.as_slice();
    let rest = left.checked_sub(blocks.len() as u64)?;
    let rest = rest.checked_sub(function.params as u64)?;
    behind_blocks(rest, blocks)
}

/// The sizes of functions are taken from a number.
fn behind_functions(left: u64, functions: &[Func<VmInsn>]) -> Option<u64>
    ensures { IfSome result (λ rest. rest + program_size functions.now ≡ left) }
{
    let mut rest = left;
    for function in functions {
        rest = behind_function(rest, function)?;
    }
    Some(rest)
}

/// Whether no function has more registers than 2^24.
fn have_few_registers(functions: &[Func<VmInsn>]) -> bool
    ensures { OnTrue result (All (λ (f : VmFunction). f.temps ≤ 2 ^ 24) functions.now) }
{
    for function in functions {
        if function.temps > MOST_PROGRAM_SIZE {
            return false;
        }
    }
    true
}

/// Whether the size of a program, and the number of registers of each of its functions, is at most 2^24.
pub fn is_small(program: &VmProgram) -> bool
    ensures size { OnTrue result (program_size program.now.functions ≤ 2 ^ 24) }
    ensures registers { OnTrue result (All (λ (f : VmFunction). f.temps ≤ 2 ^ 24) program.now.functions) }
{
    let functions = program.functions.as_slice();
    if !have_few_registers(functions) {
        return false;
    }
    behind_functions(MOST_PROGRAM_SIZE as u64, functions).is_some()
}
