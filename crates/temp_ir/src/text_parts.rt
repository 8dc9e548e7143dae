//! The text of instructions.

ghost use Rattle.std.specs.Prelude.{◌≡◌, ◌++◌, OnOk, decimal, codes};
ghost use Rattle.std.specs.Fmt.{signed_decimal};
ghost use Rattle.suifvm_ir.specs.Lines.{block_name};
ghost use Rattle.suifvm_ir.specs.Text.{place_name};
ghost use Rattle.temp_ir.specs.Fixed.{register_number, argument_registers};
ghost use Rattle.temp_ir.specs.Text as text;

use crate::insn::{FirstOperand, FixedRegister, SecondOperand, TempInsn};
use crate::words::{
    address_word, branch_word, extend_word, load_word, operate_word, return_word, routine_word,
    service_word, store_word,
};
use std::alloc::AllocError;
use suifvm_ir::insn::VmObject;
use suifvm_ir::text_parts::{put, put_block, put_number, put_place, put_signed};

/// Puts a temporary.
fn put_temp(out: &mut Vec<u8>, mark: &str, temp: u32) -> Result<(), AllocError>
    ensures { OnOk result (out.new.items ≡ out.old.items ++ text.temp_text mark.now temp) }
{
    put(out, mark)?;
    put_number(out, u64::from(temp))
}

/// Puts a register by its number.
fn put_register(out: &mut Vec<u8>, register: u8) -> Result<(), AllocError>
    ensures { OnOk result (out.new.items ≡ out.old.items ++ text.register_name register) }
{
    put(out, "$")?;
    put_number(out, u64::from(register))
}

/// Puts a first operand.
fn put_source(out: &mut Vec<u8>, mark: &str, source: FirstOperand) -> Result<(), AllocError>
    ensures { OnOk result (out.new.items ≡ out.old.items ++ text.source_text mark.now source) }
{
    match source {
        FirstOperand::Zero => put(out, "$31"),
        FirstOperand::Temp(temp) => put_temp(out, mark, temp),
    }
}

/// Puts a second operand.
fn put_operand(out: &mut Vec<u8>, mark: &str, operand: SecondOperand) -> Result<(), AllocError>
    ensures { OnOk result (out.new.items ≡ out.old.items ++ text.operand_text mark.now operand) }
{
    match operand {
        SecondOperand::Temp(temp) => put_temp(out, mark, temp),
        SecondOperand::Literal(number) => put_number(out, u64::from(number)),
    }
}

/// Puts registers, each with a comma before it.
#[tactic(auto, using(crate::proofs::TextLoops::registers_next, crate::proofs::TextLoops::registers_end))]
fn put_registers(out: &mut Vec<u8>, registers: &[u8]) -> Result<(), AllocError>
    ensures { OnOk result (out.new.items ≡ out.old.items ++ text.registers_text registers.now) }
{
    for register in registers {
        put(out, ", ")?;
        put_register(out, *register)?;
    }
    Ok(())
}

/// Puts the registers of the first six of so many arguments, each with a comma before it.
fn put_arguments(out: &mut Vec<u8>, count: u32) -> Result<(), AllocError>
    ensures { OnOk result (out.new.items ≡ out.old.items ++ text.registers_text (argument_registers count)) }
{
    let registers = [16, 17, 18, 19, 20, 21];
    let here = count.min(6) as usize;
    put_registers(out, &registers[..here])
}

/// Puts a register, and one that is moved by so many bytes.
fn put_memory(
    out: &mut Vec<u8>,
    mark: &str,
    word: &str,
    first: FirstOperand,
    plus: i16,
    base: FirstOperand,
) -> Result<(), AllocError>
    ensures { OnOk result (out.new.items ≡ out.old.items ++ text.memory_text mark.now word.now first plus base) }
{
    put(out, word)?;
    put(out, " ")?;
    put_source(out, mark, first)?;
    put(out, ", ")?;
    put_signed(out, i64::from(plus))?;
    put(out, "(")?;
    put_source(out, mark, base)?;
    put(out, ")")
}

/// Puts an operation on two operands.
fn put_operate(
    out: &mut Vec<u8>,
    mark: &str,
    word: &str,
    left: FirstOperand,
    right: SecondOperand,
    destination: u32,
) -> Result<(), AllocError>
    ensures { OnOk result
        (out.new.items ≡ out.old.items ++ text.operate_text mark.now word.now left right destination) }
{
    put(out, word)?;
    put(out, " ")?;
    put_source(out, mark, left)?;
    put(out, ", ")?;
    put_operand(out, mark, right)?;
    put(out, ", ")?;
    put_temp(out, mark, destination)
}

/// Puts the address of an object.
fn put_address(
    out: &mut Vec<u8>,
    mark: &str,
    destination: u32,
    place: VmObject,
    plus: u64,
) -> Result<(), AllocError>
    ensures { OnOk result (out.new.items ≡ out.old.items
        ++ (codes "lda " ++ text.temp_text mark.now destination ++ codes ", " ++ place_name place ++ codes "+"
        ++ decimal plus)) }
{
    put(out, "lda ")?;
    put_temp(out, mark, destination)?;
    put(out, ", ")?;
    put_place(out, place)?;
    put(out, "+")?;
    put_number(out, plus)
}

/// Puts a sign extension.
fn put_extend(
    out: &mut Vec<u8>,
    mark: &str,
    word: &str,
    source: SecondOperand,
    destination: u32,
) -> Result<(), AllocError>
    ensures { OnOk result (out.new.items ≡ out.old.items
        ++ (word.now ++ codes " " ++ text.operand_text mark.now source ++ codes ", "
        ++ text.temp_text mark.now destination)) }
{
    put(out, word)?;
    put(out, " ")?;
    put_operand(out, mark, source)?;
    put(out, ", ")?;
    put_temp(out, mark, destination)
}

/// Puts a move from a temporary to a fixed register.
fn put_to_fixed(
    out: &mut Vec<u8>,
    mark: &str,
    register: FixedRegister,
    source: u32,
) -> Result<(), AllocError>
    ensures { OnOk result (out.new.items ≡ out.old.items
        ++ (codes "bis $31, " ++ text.temp_text mark.now source ++ codes ", "
        ++ text.register_name (register_number register))) }
{
    put(out, "bis $31, ")?;
    put_temp(out, mark, source)?;
    put(out, ", ")?;
    put_register(out, register.number())
}

/// Puts a move from a fixed register to a temporary.
fn put_from_fixed(
    out: &mut Vec<u8>,
    mark: &str,
    destination: u32,
    register: FixedRegister,
) -> Result<(), AllocError>
    ensures { OnOk result (out.new.items ≡ out.old.items
        ++ (codes "bis $31, " ++ text.register_name (register_number register) ++ codes ", "
        ++ text.temp_text mark.now destination)) }
{
    put(out, "bis $31, ")?;
    put_register(out, register.number())?;
    put(out, ", ")?;
    put_temp(out, mark, destination)
}

/// Puts a number that a fixed register gets.
fn put_set_fixed(out: &mut Vec<u8>, register: FixedRegister, number: i16) -> Result<(), AllocError>
    ensures { OnOk result (out.new.items ≡ out.old.items
        ++ (codes "lda " ++ text.register_name (register_number register) ++ codes ", " ++ signed_decimal number
        ++ codes "($31)")) }
{
    put(out, "lda ")?;
    put_register(out, register.number())?;
    put(out, ", ")?;
    put_signed(out, i64::from(number))?;
    put(out, "($31)")
}

/// Puts a move to or from an argument place.
fn put_argument(
    out: &mut Vec<u8>,
    mark: &str,
    word: &str,
    temp: u32,
    place: &str,
    number: u32,
) -> Result<(), AllocError>
    ensures { OnOk result (out.new.items ≡ out.old.items
        ++ (word.now ++ text.temp_text mark.now temp ++ place.now ++ decimal number)) }
{
    put(out, word)?;
    put_temp(out, mark, temp)?;
    put(out, place)?;
    put_number(out, u64::from(number))
}

/// Puts a branch.
fn put_branch(
    out: &mut Vec<u8>,
    mark: &str,
    word: &str,
    source: u32,
    block: u32,
) -> Result<(), AllocError>
    ensures { OnOk result (out.new.items ≡ out.old.items
        ++ (word.now ++ codes " " ++ text.temp_text mark.now source ++ codes ", " ++ block_name block)) }
{
    put(out, word)?;
    put(out, " ")?;
    put_temp(out, mark, source)?;
    put(out, ", ")?;
    put_block(out, block)
}

/// Puts a jump.
fn put_jump(out: &mut Vec<u8>, block: u32) -> Result<(), AllocError>
    ensures { OnOk result (out.new.items ≡ out.old.items ++ (codes "br $31, " ++ block_name block)) }
{
    put(out, "br $31, ")?;
    put_block(out, block)
}

/// Puts a call of a function.
fn put_call(out: &mut Vec<u8>, function: u32, arguments: u32) -> Result<(), AllocError>
    ensures { OnOk result (out.new.items ≡ out.old.items
        ++ (codes "bsr $26, " ++ decimal function ++ text.registers_text (argument_registers arguments))) }
{
    put(out, "bsr $26, ")?;
    put_number(out, u64::from(function))?;
    put_arguments(out, arguments)
}

/// Puts a call of a division routine.
fn put_divide(out: &mut Vec<u8>, word: &str) -> Result<(), AllocError>
    ensures { OnOk result (out.new.items ≡ out.old.items ++ (codes "bsr $23, " ++ word.now)) }
{
    put(out, "bsr $23, ")?;
    put(out, word)
}

/// Puts an instruction, with a mark before the number of each temporary.
pub fn put_insn(out: &mut Vec<u8>, mark: &str, insn: &TempInsn) -> Result<(), AllocError>
    ensures { OnOk result (out.new.items ≡ out.old.items ++ text.insn_text mark.now insn.now) }
{
    match insn {
        TempInsn::Address {
            op,
            destination,
            base,
            plus,
        } => {
            put_memory(
                out,
                mark,
                address_word(*op),
                FirstOperand::Temp(*destination),
                *plus,
                *base,
            )
        }
        TempInsn::ObjectAddress {
            destination,
            place,
            plus,
        } => put_address(out, mark, *destination, *place, *plus),
        TempInsn::Load {
            op,
            destination,
            pointer,
            plus,
        } => {
            put_memory(
                out,
                mark,
                load_word(*op),
                FirstOperand::Temp(*destination),
                *plus,
                FirstOperand::Temp(*pointer),
            )
        }
        TempInsn::Store {
            op,
            value,
            pointer,
            plus,
        } => {
            put_memory(
                out,
                mark,
                store_word(*op),
                *value,
                *plus,
                FirstOperand::Temp(*pointer),
            )
        }
        TempInsn::Operate {
            op,
            destination,
            left,
            right,
        } => { put_operate(out, mark, operate_word(*op), *left, *right, *destination) }
        TempInsn::Extend {
            op,
            destination,
            source,
        } => put_extend(out, mark, extend_word(*op), *source, *destination),
        TempInsn::ToFixed { register, source } => put_to_fixed(out, mark, *register, *source),
        TempInsn::FromFixed {
            destination,
            register,
        } => put_from_fixed(out, mark, *destination, *register),
        TempInsn::SetFixed { register, number } => put_set_fixed(out, *register, *number),
        TempInsn::WriteArgument { number, source } => {
            put_argument(out, mark, "stq ", *source, ", out", *number)
        }
        TempInsn::ReadArgument {
            destination,
            number,
        } => put_argument(out, mark, "ldq ", *destination, ", in", *number),
        TempInsn::Branch { op, source, block } => {
            put_branch(out, mark, branch_word(*op), *source, *block)
        }
        TempInsn::Jump { block } => put_jump(out, *block),
        TempInsn::Call {
            function,
            arguments,
        } => put_call(out, *function, *arguments),
        TempInsn::Divide { routine } => put_divide(out, routine_word(*routine)),
        TempInsn::Serve { service } => put(out, service_word(*service)),
        TempInsn::Return { with_value } => put(out, return_word(*with_value)),
        TempInsn::Mark => put(out, "mrk"),
    }
}
