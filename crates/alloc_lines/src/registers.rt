//! Instructions with the registers that are stated for their temporaries.

ghost use Rattle.std.specs.Prelude.{◌≡◌, ◌≤◌};
ghost use Rattle.alloc_lines.specs.Registers as stated;

use temp_ir::insn::{FirstOperand, SecondOperand, TempInsn};

/// The register with a number in the list, or 0 where there is none.
fn register_at(registers: &[u8], k: usize) -> u32
    ensures { result ≡ stated.register_at registers.now k }
{
    match registers.get(k) {
        None => 0,
        Some(register) => u32::from(*register),
    }
}

/// How many temporaries a first operand is.
fn source_count(source: FirstOperand) -> usize
    ensures is { result ≡ stated.source_count source }
    ensures few { result ≤ 1 }
{
    match source {
        FirstOperand::Zero => 0,
        FirstOperand::Temp(_) => 1,
    }
}

/// How many temporaries a second operand is.
fn operand_count(operand: SecondOperand) -> usize
    ensures is { result ≡ stated.operand_count operand }
    ensures few { result ≤ 1 }
{
    match operand {
        SecondOperand::Temp(_) => 1,
        SecondOperand::Literal(_) => 0,
    }
}

/// A first operand, of which the register stands at a place of the list.
fn source_in(registers: &[u8], k: usize, source: FirstOperand) -> FirstOperand
    ensures { result ≡ stated.source_in registers.now k source }
{
    match source {
        FirstOperand::Zero => FirstOperand::Zero,
        FirstOperand::Temp(_) => FirstOperand::Temp(register_at(registers, k)),
    }
}

/// A second operand, of which the register stands at a place of the list.
fn operand_in(registers: &[u8], k: usize, operand: SecondOperand) -> SecondOperand
    ensures { result ≡ stated.operand_in registers.now k operand }
{
    match operand {
        SecondOperand::Temp(_) => SecondOperand::Temp(register_at(registers, k)),
        SecondOperand::Literal(number) => SecondOperand::Literal(number),
    }
}

/// An instruction with these registers for its temporaries: those that it reads, in order, then those that it writes.
pub(crate) fn with_registers(registers: &[u8], insn: &TempInsn) -> TempInsn
    ensures { result ≡ stated.with_stated_registers registers.now insn.now }
{
    match insn {
        TempInsn::Address { op, base, plus, .. } => TempInsn::Address {
            op: *op,
            destination: register_at(registers, source_count(*base)),
            base: source_in(registers, 0, *base),
            plus: *plus,
        },
        TempInsn::ObjectAddress { place, plus, .. } => TempInsn::ObjectAddress {
            destination: register_at(registers, 0),
            place: *place,
            plus: *plus,
        },
        TempInsn::Load { op, plus, .. } => TempInsn::Load {
            op: *op,
            destination: register_at(registers, 1),
            pointer: register_at(registers, 0),
            plus: *plus,
        },
        TempInsn::Store {
            op,
            value,
            plus,
            ..
        } => TempInsn::Store {
            op: *op,
            value: source_in(registers, 0, *value),
            pointer: register_at(registers, source_count(*value)),
            plus: *plus,
        },
        TempInsn::Operate {
            op,
            left,
            right,
            ..
        } => TempInsn::Operate {
            op: *op,
            destination: register_at(registers, source_count(*left) + operand_count(*right)),
            left: source_in(registers, 0, *left),
            right: operand_in(registers, source_count(*left), *right),
        },
        TempInsn::Extend { op, source, .. } => TempInsn::Extend {
            op: *op,
            destination: register_at(registers, operand_count(*source)),
            source: operand_in(registers, 0, *source),
        },
        TempInsn::ToFixed { register, .. } => TempInsn::ToFixed {
            register: *register,
            source: register_at(registers, 0),
        },
        TempInsn::FromFixed { register, .. } => TempInsn::FromFixed {
            destination: register_at(registers, 0),
            register: *register,
        },
        TempInsn::WriteArgument { number, .. } => TempInsn::WriteArgument {
            number: *number,
            source: register_at(registers, 0),
        },
        TempInsn::ReadArgument { number: place, .. } => TempInsn::ReadArgument {
            destination: register_at(registers, 0),
            number: *place,
        },
        TempInsn::Branch { op, block, .. } => TempInsn::Branch {
            op: *op,
            source: register_at(registers, 0),
            block: *block,
        },
        TempInsn::SetFixed { register, number } => TempInsn::SetFixed {
            register: *register,
            number: *number,
        },
        TempInsn::Jump { block } => TempInsn::Jump { block: *block },
        TempInsn::Call {
            function,
            arguments,
        } => TempInsn::Call {
            function: *function,
            arguments: *arguments,
        },
        TempInsn::Divide { routine } => TempInsn::Divide { routine: *routine },
        TempInsn::Serve { service } => TempInsn::Serve { service: *service },
        TempInsn::Return { with_value } => TempInsn::Return {
            with_value: *with_value,
        },
        TempInsn::Mark => TempInsn::Mark,
    }
}
