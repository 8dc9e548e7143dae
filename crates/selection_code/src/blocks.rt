//! The code of blocks and functions.

ghost use Rattle.std.specs.Prelude.{◌≡◌, ◌-◌, ◌^◌, ◌<◌, All, ◌++◌, map, OnOk, IfOk};
ghost use Rattle.pass_core.specs.Functions.{AllInsns};
ghost use Rattle.selection_code.specs.Functions as functions;
ghost use Rattle.selection_code.specs.Fields.{HasFields, HasNumbers};
ghost use Rattle.suifvm_zero_branches.specs.Tests.{tested_block};

use crate::calls::put_parameters;
use crate::instructions::put_insn;
use bk_containers::Seq;
use pass_core::block::Block;
use std::alloc::{AllocError, Global};
use suifvm_ir::insn::VmInsn;
use suifvm_zero_branches::RegisterFact;
use temp_ir::insn::TempInsn;

/// Puts the code of the instructions of a block. A branch on what a comparison with zero found tests the value.
#[tactic(auto, using(crate::proofs::Turns::insn_turn, crate::proofs::Turns::numbers_here, crate::proofs::Turns::numbers_left, crate::proofs::Turns::fields_turn))]
fn put_insns(out: &mut Block<TempInsn>, block: &Block<VmInsn>) -> Result<(), AllocError>
    requires { All HasNumbers block.now }
    ensures put { OnOk result (out.new ≡ out.old ++ functions.selected_insns (tested_block block.now)) }
    ensures fields { OnOk result (All HasFields block.now) }
{
    let mut known = RegisterFact::Nothing;
    for line in block.insns.iter() {
        let (_id, insn) = line;
        put_insn(out, known, insn)?;
        known = known.after(insn);
    }
    Ok(())
}

/// The code of a block, behind the code that takes so many parameters. It fails only where memory is short.
fn block_code(
    alloc: Global,
    params: u32,
    block: &Block<VmInsn>,
) -> Result<Block<TempInsn>, AllocError>
    requires few { params < 2 ^ 32 - 4 }
    requires numbers { All HasNumbers block.now }
    ensures put { IfOk result (λ code. code ≡ functions.parameter_items params ++ functions.selected_insns (tested_block block.now)) }
    ensures fields { OnOk result (All HasFields block.now) }
{
    let mut code = Block::new(alloc);
    put_parameters(&mut code, params)?;
    put_insns(&mut code, block)?;
    Ok(code)
}

/// The code of the blocks of a function with so many parameters. It fails only where memory is short.
pub fn function_blocks(
    alloc: Global,
    params: u32,
    blocks: &[Block<VmInsn>],
) -> Result<Seq<Block<TempInsn>>, AllocError>
    requires few { params < 2 ^ 32 - 4 }
    requires numbers { AllInsns HasNumbers blocks.now }
    ensures put { IfOk result (λ codes. codes ≡ functions.selected_blocks params (map tested_block blocks.now)) }
    ensures fields { OnOk result (AllInsns HasFields blocks.now) }
{
    let mut codes = Seq::new(alloc);
    let mut waiting = params;
    for block in blocks {
        codes.push(block_code(alloc, waiting, block)?)?;
        waiting = 0;
    }
    Ok(codes)
}
