//! The code of a constant.

ghost use Rattle.std.specs.Prelude.{◌≡◌, [], ◌∷◌, ◌++◌, OnOk};
ghost use Rattle.temp_ir.specs.declared.operation.AddressOp.TheVariants as address;
ghost use Rattle.temp_ir.specs.declared.insn.FirstOperand.TheVariants as source;
ghost use Rattle.temp_ir.specs.declared.insn.TempInsn.TheVariants as insn;
ghost use Rattle.selection_forms.specs.alpha_forms.Constants as constants;

use alpha_constants::parts::{high_part, low_part};
use alpha_constants::recipe::{Finish, Recipe};
use alpha_constants::shortest::recipe_of;
use pass_core::block::Block;
use std::alloc::AllocError;
use temp_ir::insn::{FirstOperand, SecondOperand, TempInsn};
use temp_ir::operation::{AddressOp, Operation};

/// Puts an address instruction, but none where its displacement is zero.
fn put_unless_zero(
    out: &mut Block<TempInsn>,
    op: AddressOp,
    destination: u32,
    plus: i16,
) -> Result<(), AllocError>
    ensures { OnOk result (out.new ≡
        out.old ++ constants.unless_zero plus (insn.Address op destination (source.Temp destination) plus)) }
{
    if plus == 0 {
        return Ok(());
    }
    out.push(TempInsn::Address {
        op,
        destination,
        base: FirstOperand::Temp(destination),
        plus,
    })
}

/// Puts the displacements of a number, from zero.
fn put_near(out: &mut Block<TempInsn>, destination: u32, number: u64) -> Result<(), AllocError>
    ensures { OnOk result (out.new ≡ out.old ++ constants.near_items destination number) }
{
    let high = high_part(number);
    if high == 0 {
        return out.push(TempInsn::Address {
            op: AddressOp::Lda,
            destination,
            base: FirstOperand::Zero,
            plus: low_part(number),
        });
    }
    out.push(TempInsn::Address {
        op: AddressOp::Ldah,
        destination,
        base: FirstOperand::Zero,
        plus: high,
    })?;
    put_unless_zero(out, AddressOp::Lda, destination, low_part(number))
}

/// Puts the displacements of a number, added to what the temporary holds.
fn put_lower(out: &mut Block<TempInsn>, destination: u32, number: u64) -> Result<(), AllocError>
    ensures { OnOk result (out.new ≡ out.old ++ constants.lower_items destination number) }
{
    put_unless_zero(out, AddressOp::Ldah, destination, high_part(number))?;
    put_unless_zero(out, AddressOp::Lda, destination, low_part(number))
}

/// Puts an operation on what the temporary holds, and a number.
fn put_with_literal(
    out: &mut Block<TempInsn>,
    op: Operation,
    destination: u32,
    number: u8,
) -> Result<(), AllocError>
    ensures { OnOk result (out.new ≡ out.old ++ constants.with_literal op destination number ∷ []) }
{
    out.push(TempInsn::Operate {
        op,
        destination,
        left: FirstOperand::Temp(destination),
        right: SecondOperand::Literal(number),
    })
}

/// Puts a finish.
fn put_finish(out: &mut Block<TempInsn>, destination: u32, finish: Finish) -> Result<(), AllocError>
    ensures { OnOk result (out.new ≡ out.old ++ constants.finish_items destination finish) }
{
    match finish {
        Finish::Nothing => Ok(()),
        Finish::ShiftLeft(places) => put_with_literal(out, Operation::Sll, destination, places),
        Finish::ShiftRight(places) => put_with_literal(out, Operation::Srl, destination, places),
        Finish::LowHalf => put_with_literal(out, Operation::Zapnot, destination, 15),
        Finish::AddLower(lower) => {
            put_with_literal(out, Operation::Sll, destination, 32)?;
            put_lower(out, destination, lower)
        }
    }
}

/// Puts the code of a recipe.
fn put_recipe(out: &mut Block<TempInsn>, destination: u32, recipe: Recipe) -> Result<(), AllocError>
    ensures { OnOk result (out.new ≡ out.old ++ constants.recipe_items destination recipe) }
{
    put_near(out, destination, recipe.near)?;
    put_finish(out, destination, recipe.finish)
}

/// Puts the code that sets a temporary to a word. Where memory is short a part of it may have been put.
#[tactic(auto, unfolding(crate::specs::alpha_forms::Constants::constant_items))]
pub fn put_constant(
    out: &mut Block<TempInsn>,
    destination: u32,
    word: u64,
) -> Result<(), AllocError>
    ensures { OnOk result (out.new ≡ out.old ++ constants.constant_items destination word) }
{
    if word == 0 {
        return out.push(TempInsn::Operate {
            op: Operation::Bis,
            destination,
            left: FirstOperand::Zero,
            right: SecondOperand::Literal(0),
        });
    }
    put_recipe(out, destination, recipe_of(word))
}
