//! The registers that an instruction reads, writes or ends by its kind.

ghost use Rattle.std.specs.Prelude.{◌≡◌, [], ◌∷◌};
ghost use Rattle.temp_ir.specs.Fixed as fixed;
ghost use Rattle.alloc_rules.specs.Visits as visits;

use temp_ir::insn::{FixedRegister, TempInsn};
use temp_ir::operation::Service;

/// The list of one fixed register.
fn only(register: FixedRegister) -> &'static [u8]
    ensures { result.now ≡ fixed.register_number register ∷ [] }
{
    match register {
        FixedRegister::Value => &[0],
        FixedRegister::Argument0 => &[16],
        FixedRegister::Argument1 => &[17],
        FixedRegister::Argument2 => &[18],
        FixedRegister::Argument3 => &[19],
        FixedRegister::Argument4 => &[20],
        FixedRegister::Argument5 => &[21],
        FixedRegister::Dividend => &[24],
        FixedRegister::Divisor => &[25],
        FixedRegister::Answer => &[27],
    }
}

/// The registers of the first six of so many arguments.
fn of_arguments(count: u32) -> &'static [u8]
    ensures { result.now ≡ fixed.argument_registers count }
{
    match count {
        0 => &[],
        1 => &[16],
        2 => &[16, 17],
        3 => &[16, 17, 18],
        4 => &[16, 17, 18, 19],
        5 => &[16, 17, 18, 19, 20],
        _ => &[16, 17, 18, 19, 20, 21],
    }
}

/// What a service reads.
fn read_by_service(service: Service) -> &'static [u8]
    ensures { result.now ≡ fixed.service_reads service }
{
    match service {
        Service::End => &[0, 16],
        Service::PutByte => &[0, 16],
        Service::GetByte => &[0],
        Service::Trap => &[16],
    }
}

/// What a service writes.
fn written_by_service(service: Service) -> &'static [u8]
    ensures { result.now ≡ fixed.service_writes service }
{
    match service {
        Service::GetByte => &[0],
        Service::End => &[],
        Service::PutByte => &[],
        Service::Trap => &[],
    }
}

/// What a return reads.
fn read_by_return(with_value: bool) -> &'static [u8]
    ensures { result.now ≡ fixed.returned_registers with_value }
{
    if with_value { &[0] } else { &[] }
}

/// The registers that an instruction reads as fixed, in order.
fn fixed_reads(insn: &TempInsn) -> &'static [u8]
    ensures { result.now ≡ fixed.fixed_reads_of insn.now }
{
    match insn {
        TempInsn::FromFixed { register, .. } => only(*register),
        TempInsn::Call { arguments, .. } => of_arguments(*arguments),
        TempInsn::Divide { .. } => &[24, 25],
        TempInsn::Serve { service } => read_by_service(*service),
        TempInsn::Return { with_value } => read_by_return(*with_value),
        _ => &[],
    }
}

/// The registers that an instruction writes as fixed.
fn fixed_writes(insn: &TempInsn) -> &'static [u8]
    ensures { result.now ≡ fixed.fixed_writes_of insn.now }
{
    match insn {
        TempInsn::ToFixed { register, .. } => only(*register),
        TempInsn::SetFixed { register, .. } => only(*register),
        TempInsn::Call { .. } => &[0],
        TempInsn::Divide { .. } => &[27],
        TempInsn::Serve { service } => written_by_service(*service),
        _ => &[],
    }
}

/// The registers that an instruction ends.
fn ended_registers(insn: &TempInsn) -> &'static [u8]
    ensures { result.now ≡ fixed.ended_of insn.now }
{
    match insn {
        TempInsn::Call { .. } => &[
            0, 1, 2, 3, 4, 5, 6, 7, 8, 16, 17, 18, 19, 20, 21, 22, 23, 24, 25, 26, 27, 28, 29,
        ],
        TempInsn::Divide { .. } => &[23, 27, 28],
        _ => &[],
    }
}

/// Whether a register is in a list.
#[tactic(auto, using(crate::proofs::Loops::has_next, crate::proofs::Loops::has_found, crate::proofs::Loops::has_end))]
fn has(registers: &[u8], register: u8) -> bool
    ensures { result ≡ fixed.has_number registers.now register }
{
    for other in registers {
        if *other == register {
            return true;
        }
    }
    false
}

/// Whether an instruction writes a register as fixed, or ends it.
pub fn takes_away(insn: &TempInsn, register: u8) -> bool
    ensures { result ≡ visits.takes_away insn.now register }
{
    has(fixed_writes(insn), register) || has(ended_registers(insn), register)
}

/// Whether an instruction reads a register as fixed.
pub(crate) fn reads_fixed(insn: &TempInsn, register: u8) -> bool
    ensures { result ≡ fixed.has_number (fixed.fixed_reads_of insn.now) register }
{
    has(fixed_reads(insn), register)
}

/// Whether an instruction names a register as fixed, or ends it.
pub(crate) fn fixes(insn: &TempInsn, register: u8) -> bool
    ensures { result ≡ visits.fixes insn.now register }
{
    reads_fixed(insn, register) || takes_away(insn, register)
}
