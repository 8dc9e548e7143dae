//! The code of calls, returns and parameters.

ghost use Rattle.std.specs.Prelude.{◌≡◌, ◌-◌, ◌^◌, ◌<◌, ℕ, All, List, [], ◌∷◌, ◌++◌, length, OnOk};
ghost use Rattle.suifvm_ir.specs.Insns.{named_register, returned_register};
ghost use Rattle.temp_ir.specs.declared.insn.TempInsn.TheVariants as insn;
ghost use Rattle.selection_code.specs.Instructions as code;
ghost use Rattle.selection_code.specs.Fields.{IsNumbered};

use crate::temporaries::temp_of;
use pass_core::block::Block;
use std::alloc::AllocError;
use suifvm_ir::insn::{TypedRegister, VmBuiltin, VmCallee};
use temp_ir::insn::{FirstOperand, FixedRegister, SecondOperand, TempInsn};
use temp_ir::operation::{Operation, Service};

/// The number of registers in which arguments are passed.
const REGISTER_COUNT: u32 = 6;

/// The register of one of the first six arguments.
fn argument_register(number: u32) -> FixedRegister
    ensures { result ≡ code.argument_register number }
{
    match number {
        0 => FixedRegister::Argument0,
        1 => FixedRegister::Argument1,
        2 => FixedRegister::Argument2,
        3 => FixedRegister::Argument3,
        4 => FixedRegister::Argument4,
        _ => FixedRegister::Argument5,
    }
}

/// An argument is passed in its register, or in its argument place from the seventh on.
fn pass_item(number: u32, source: u32) -> TempInsn
    ensures { result ≡ code.pass_item number source }
{
    if number < REGISTER_COUNT {
        TempInsn::ToFixed {
            register: argument_register(number),
            source,
        }
    } else {
        TempInsn::WriteArgument {
            number: number - REGISTER_COUNT,
            source,
        }
    }
}

/// A parameter is taken from where it was passed.
fn take_item(number: u32, destination: u32) -> TempInsn
    ensures { result ≡ code.take_item number destination }
{
    if number < REGISTER_COUNT {
        TempInsn::FromFixed {
            destination,
            register: argument_register(number),
        }
    } else {
        TempInsn::ReadArgument {
            destination,
            number: number - REGISTER_COUNT,
        }
    }
}

/// Puts the code that passes arguments.
#[tactic(auto, using(crate::proofs::Turns::passed_turn, crate::proofs::Turns::passed_end))]
fn put_arguments(out: &mut Block<TempInsn>, arguments: &[u32]) -> Result<(), AllocError>
    requires few { length arguments.now < 2 ^ 32 }
    requires registers { All IsNumbered arguments.now }
    ensures { OnOk result (out.new ≡ out.old ++ code.pass_items 0 arguments.now) }
{
    for index in 0..arguments.len() {
        out.push(pass_item(index as u32, temp_of(arguments[index])))?;
    }
    Ok(())
}

/// Puts the code that takes so many parameters.
#[tactic(auto, using(crate::proofs::Turns::taken_turn, crate::proofs::Turns::taken_end))]
pub fn put_parameters(out: &mut Block<TempInsn>, count: u32) -> Result<(), AllocError>
    requires { count < 2 ^ 32 - 4 }
    ensures { OnOk result (out.new ≡ out.old ++ code.take_items 0 count) }
{
    for number in 0..count {
        out.push(take_item(number, temp_of(number)))?;
    }
    Ok(())
}

/// Puts the code that puts a result into its register.
fn put_result(out: &mut Block<TempInsn>, destination: Option<u32>) -> Result<(), AllocError>
    requires { All IsNumbered (named_register destination) }
    ensures { OnOk result (out.new ≡ out.old ++ code.result_items destination) }
{
    match destination {
        Some(register) => out.push(TempInsn::FromFixed {
            destination: temp_of(register),
            register: FixedRegister::Value,
        }),
        None => Ok(()),
    }
}

/// Puts the code of a call of a function.
fn put_function(
    out: &mut Block<TempInsn>,
    destination: Option<u32>,
    function: u32,
    arguments: &[u32],
) -> Result<(), AllocError>
    requires few { length arguments.now < 2 ^ 32 }
    requires registers { All IsNumbered arguments.now }
    requires result { All IsNumbered (named_register destination) }
    ensures { OnOk result (out.new ≡ out.old ++ code.function_call_items destination function arguments.now) }
{
    put_arguments(out, arguments)?;
    out.push(TempInsn::Call {
        function,
        arguments: arguments.len() as u32,
    })?;
    put_result(out, destination)
}

/// Puts the code that puts the low byte of an argument into a register, if one is named.
fn put_byte(
    out: &mut Block<TempInsn>,
    destination: Option<u32>,
    argument: u32,
) -> Result<(), AllocError>
    requires argument { IsNumbered argument }
    requires result { All IsNumbered (named_register destination) }
    ensures { OnOk result (out.new ≡ out.old ++ code.byte_items destination argument) }
{
    match destination {
        Some(register) => out.push(TempInsn::Operate {
            op: Operation::Zapnot,
            destination: temp_of(register),
            left: FirstOperand::Temp(temp_of(argument)),
            right: SecondOperand::Literal(1),
        }),
        None => Ok(()),
    }
}

/// Puts a number into a fixed register.
fn put_number(
    out: &mut Block<TempInsn>,
    register: FixedRegister,
    number: i16,
) -> Result<(), AllocError>
    ensures { OnOk result (out.new ≡ out.old ++ insn.SetFixed register number ∷ []) }
{
    out.push(TempInsn::SetFixed { register, number })
}

/// Puts a value into a fixed register.
fn put_fixed(
    out: &mut Block<TempInsn>,
    register: FixedRegister,
    value: u32,
) -> Result<(), AllocError>
    requires { IsNumbered value }
    ensures { OnOk result (out.new ≡ out.old ++ insn.ToFixed register (code.temp_of value) ∷ []) }
{
    out.push(TempInsn::ToFixed {
        register,
        source: temp_of(value),
    })
}

/// Puts the code of `putchar`.
fn put_putchar(
    out: &mut Block<TempInsn>,
    destination: Option<u32>,
    arguments: &[u32],
) -> Result<(), AllocError>
    requires registers { All IsNumbered arguments.now }
    requires result { All IsNumbered (named_register destination) }
    ensures { OnOk result (out.new ≡ out.old ++ code.put_char_items destination arguments.now) }
{
    match arguments {
        [] => Ok(()),
        [argument, ..] => {
            put_fixed(out, FixedRegister::Argument0, *argument)?;
            put_number(out, FixedRegister::Value, 2)?;
            out.push(TempInsn::Serve {
                service: Service::PutByte,
            })?;
            put_byte(out, destination, *argument)
        }
    }
}

/// Puts the code of `getchar`.
fn put_getchar(out: &mut Block<TempInsn>, destination: Option<u32>) -> Result<(), AllocError>
    requires { All IsNumbered (named_register destination) }
    ensures { OnOk result (out.new ≡ out.old ++ code.get_char_items destination) }
{
    put_number(out, FixedRegister::Value, 3)?;
    out.push(TempInsn::Serve {
        service: Service::GetByte,
    })?;
    put_result(out, destination)
}

/// Puts the code of `abort`.
fn put_abort(out: &mut Block<TempInsn>) -> Result<(), AllocError>
    ensures { OnOk result (out.new ≡ out.old ++ code.abort_items) }
{
    put_number(out, FixedRegister::Argument0, 2)?;
    out.push(TempInsn::Serve {
        service: Service::Trap,
    })
}

/// Puts the code of `exit`.
fn put_exit(out: &mut Block<TempInsn>, arguments: &[u32]) -> Result<(), AllocError>
    requires { All IsNumbered arguments.now }
    ensures { OnOk result (out.new ≡ out.old ++ code.exit_call_items arguments.now) }
{
    match arguments {
        [] => Ok(()),
        [argument, ..] => {
            put_fixed(out, FixedRegister::Argument0, *argument)?;
            put_number(out, FixedRegister::Value, 1)?;
            out.push(TempInsn::Serve {
                service: Service::End,
            })
        }
    }
}

/// Puts the code of a call of a built-in function.
fn put_builtin(
    out: &mut Block<TempInsn>,
    destination: Option<u32>,
    builtin: VmBuiltin,
    arguments: &[u32],
) -> Result<(), AllocError>
    requires registers { All IsNumbered arguments.now }
    requires result { All IsNumbered (named_register destination) }
    ensures { OnOk result (out.new ≡ out.old ++ code.builtin_items destination builtin arguments.now) }
{
    match builtin {
        VmBuiltin::PutChar => put_putchar(out, destination, arguments),
        VmBuiltin::GetChar => put_getchar(out, destination),
        VmBuiltin::Abort => put_abort(out),
        VmBuiltin::Exit => put_exit(out, arguments),
    }
}

/// Puts the code of a call.
pub fn put_call(
    out: &mut Block<TempInsn>,
    destination: Option<u32>,
    callee: VmCallee,
    arguments: &[u32],
) -> Result<(), AllocError>
    requires few { length arguments.now < 2 ^ 32 }
    requires registers { All IsNumbered arguments.now }
    requires result { All IsNumbered (named_register destination) }
    ensures { OnOk result (out.new ≡ out.old ++ code.call_items destination callee arguments.now) }
{
    match callee {
        VmCallee::Function(function) => put_function(out, destination, function, arguments),
        VmCallee::Builtin(builtin) => put_builtin(out, destination, builtin, arguments),
    }
}

/// Puts the code of a return.
pub fn put_return(out: &mut Block<TempInsn>, value: Option<TypedRegister>) -> Result<(), AllocError>
    requires { All IsNumbered (returned_register value) }
    ensures { OnOk result (out.new ≡ out.old ++ code.return_items value) }
{
    match value {
        Some(value) => {
            put_fixed(out, FixedRegister::Value, value.register)?;
            out.push(TempInsn::Return { with_value: true })
        }
        None => out.push(TempInsn::Return { with_value: false }),
    }
}
