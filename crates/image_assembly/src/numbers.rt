//! The numbers in instructions have their ranges, as their types say. Clauses know it of what is read.

ghost use Rattle.std.specs.Prelude.{All};
ghost use Rattle.alpha_isa.specs.Lawful.{IsDisplacement};
ghost use Rattle.pass_core.specs.Functions.{AllInsns};
ghost use Rattle.frame_steps.specs.instruction_items.Laws.{IsSmallOperand};
ghost use Rattle.frame_bounds.specs.frame_ranges.Ranges.{HasSmallNumbers};

use alloc_model::allocation::Allocation;
use pass_core::block::Block;
use temp_ir::insn::{SecondOperand, TempInsn};

/// A displacement has 16 bits.
fn read_displacement(plus: &i16)
    ensures { IsDisplacement plus.now }
{
    let _plus = *plus;
}

/// A literal has 8 bits.
fn read_operand(operand: &SecondOperand)
    ensures { IsSmallOperand operand.now }
{
    if let SecondOperand::Literal(number) = operand {
        let _number = *number;
    }
}

fn read_insn(insn: &TempInsn)
    ensures { HasSmallNumbers insn.now }
{
    match insn {
        TempInsn::Address { plus, .. } => read_displacement(plus),
        TempInsn::Load { plus, .. } => read_displacement(plus),
        TempInsn::Store { plus, .. } => read_displacement(plus),
        TempInsn::Operate { right, .. } => read_operand(right),
        TempInsn::Extend { source, .. } => read_operand(source),
        TempInsn::SetFixed { number, .. } => read_displacement(number),
        _ => {}
    }
}

#[tactic(auto, using(pass_checks::proofs::Alls::all_left))]
fn read_block(block: &Block<TempInsn>)
    ensures { All HasSmallNumbers block.now }
{
    for line in block.insns.iter() {
        let (_id, insn) = line;
        read_insn(insn);
    }
}

/// Reads the numbers in the instructions of an allocation's function, which have the ranges of their types.
#[tactic(auto, using(pass_checks::proofs::Alls::all_more, pass_checks::proofs::Alls::all_done))]
pub fn read_numbers(a: &Allocation)
    ensures { AllInsns HasSmallNumbers a.now.func.blocks }
{
    for block in a.func.blocks.as_slice() {
        read_block(block);
    }
}
