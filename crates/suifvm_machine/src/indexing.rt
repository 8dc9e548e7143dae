//! The tables of a program, made before it runs.

ghost use Rattle.std.specs.Prelude.{◌≡◌, map, IfOk};
ghost use Rattle.suifvm_machine.specs.Tables.{block_insns, table_code, program_code, BlocksAreNumbered, FunctionsAreNumbered};
ghost use Rattle.suifvm_meaning.specs.Behave.{code_of};

use crate::tables::{BlockTable, FunctionTable, ProgramTable};
use pass_core::block::Block;
use pass_core::function::Func;
use std::alloc::{AllocError, Global};
use suifvm_ir::insn::VmInsn;
use suifvm_ir::program::VmProgram;

/// The table of a block whose first instruction has a number. It fails only where memory is short.
#[tactic(auto, using(crate::proofs::Loops::insns_next, crate::proofs::Loops::insns_end))]
fn block_table<'p>(
    alloc: Global,
    block: &'p Block<VmInsn>,
    first: u64,
) -> Result<BlockTable<'p>, AllocError>
    ensures insns { IfOk result (λ t. block_insns t ≡ block.now) }
    ensures first { IfOk result (λ t. t.first ≡ first) }
{
    let mut insns = Vec::new(alloc);
    for line in block.insns.iter() {
        let (_id, insn) = line;
        insns.push(insn)?;
    }
    // no memory holds more instructions than a number counts
    if first.checked_add(insns.len() as u64).is_none() {
        return Err(AllocError);
    }
    Ok(BlockTable { insns, first })
}

/// The table of a function whose first instruction has a number. It fails only where memory is short.
#[tactic(auto, using(crate::proofs::Sites::numbered_more, crate::proofs::Sites::numbered_end, crate::proofs::Loops::blocks_next, crate::proofs::Loops::blocks_end))]
fn function_table<'p>(
    alloc: Global,
    function: &'p Func<VmInsn>,
    first: u64,
) -> Result<FunctionTable<'p>, AllocError>
    ensures code { IfOk result (λ t. table_code t ≡ code_of function.now) }
    ensures numbers { IfOk result (λ t. BlocksAreNumbered first t.blocks.items t.end) }
{
    let mut blocks = Vec::new(alloc);
    let mut next = first;
    for block in function.blocks.as_slice() {
        let table = block_table(alloc, block, next)?;
        next = next + table.insns.len() as u64;
        blocks.push(table)?;
    }
    Ok(FunctionTable {
        objects: function.objects.as_slice(),
        blocks,
        end: next,
    })
}

/// The table of a program. It fails only where memory is short.
#[tactic(auto, using(crate::proofs::Sites::all_numbered_more, crate::proofs::Sites::all_numbered_end, crate::proofs::Loops::functions_next, crate::proofs::Loops::functions_end))]
pub fn program_table(alloc: Global, program: &VmProgram) -> Result<ProgramTable<'_>, AllocError>
    ensures code { IfOk result (λ t. program_code t ≡ map code_of program.now.functions) }
    ensures numbers { IfOk result (λ t. FunctionsAreNumbered 0 t.functions.items t.end) }
{
    let mut functions = Vec::new(alloc);
    let mut next = 0;
    for function in program.functions.as_slice() {
        let table = function_table(alloc, function, next)?;
        next = table.end;
        functions.push(table)?;
    }
    Ok(ProgramTable {
        functions,
        end: next,
    })
}
