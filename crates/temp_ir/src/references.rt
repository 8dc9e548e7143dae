//! What instructions name: temporaries, blocks, and where they go on.

ghost use Rattle.std.specs.Prelude.{◌≡◌, [], ◌∷◌, ◌++◌, slice_get};
ghost use Rattle.temp_ir.specs.Insns as insns;
ghost use Rattle.temp_ir.specs.model.Targets.{insn_laws};

use crate::insn::{FirstOperand, SecondOperand, TempInsn};
use crate::operation::{Operation, Service};
use pass_core::Insn;
use std::alloc::Global;
use suifvm_ir::references::{of_one, of_two};

/// The temporary of a first operand.
fn of_source(source: FirstOperand, k: u32) -> Option<u32>
    ensures { result ≡ slice_get (insns.source_reads source) k }
{
    match source {
        FirstOperand::Zero => None,
        FirstOperand::Temp(temp) => of_one(temp, k),
    }
}

/// The temporary of a second operand.
fn of_operand(operand: SecondOperand, k: u32) -> Option<u32>
    ensures { result ≡ slice_get (insns.operand_reads operand) k }
{
    match operand {
        SecondOperand::Temp(temp) => of_one(temp, k),
        SecondOperand::Literal(_) => None,
    }
}

/// The temporaries of a first operand and one that is always there.
fn of_source_and_temp(source: FirstOperand, temp: u32, k: u32) -> Option<u32>
    ensures { result ≡ slice_get (insns.source_reads source ++ temp ∷ []) k }
{
    match source {
        FirstOperand::Zero => of_one(temp, k),
        FirstOperand::Temp(first) => of_two(first, temp, k),
    }
}

/// The temporaries of a first operand and a second one.
fn of_operands(left: FirstOperand, right: SecondOperand, k: u32) -> Option<u32>
    ensures { result ≡ slice_get (insns.source_reads left ++ insns.operand_reads right) k }
{
    match right {
        SecondOperand::Temp(temp) => of_source_and_temp(left, temp, k),
        SecondOperand::Literal(_) => of_source(left, k),
    }
}

/// Whether the signed result of an operation has to fit.
fn is_checked(op: Operation) -> bool
    ensures { result ≡ insns.is_checked op }
{
    match op {
        Operation::AddlV | Operation::SublV | Operation::MullV => true,
        Operation::AddqV | Operation::SubqV | Operation::MulqV => true,
        _ => false,
    }
}

/// Whether a service is a trap.
fn is_trap(service: Service) -> bool
    ensures { result ≡ insns.service_may_trap service }
{
    matches!(service, Service::Trap)
}

impl Insn for TempInsn {
    ghost reads = { insns.reads_of };

    ghost writes = { insns.writes_of };

    ghost targets = { insns.targets_of };

    ghost with_target = { insns.with_block };

    ghost jump_to = { insns.jump_of };

    ghost flows_on = { insns.flows_on_of };

    ghost traps = { insns.may_trap_of };

    ghost lawful = { insn_laws };

    fn read_at(&self, k: u32) -> Option<u32> {
        match self {
            TempInsn::Address { base, .. } => of_source(*base, k),
            TempInsn::Load { pointer, .. } => of_one(*pointer, k),
            TempInsn::Store { value, pointer, .. } => of_source_and_temp(*value, *pointer, k),
            TempInsn::Operate { left, right, .. } => of_operands(*left, *right, k),
            TempInsn::Extend { source, .. } => of_operand(*source, k),
            TempInsn::ToFixed { source, .. } => of_one(*source, k),
            TempInsn::WriteArgument { source, .. } => of_one(*source, k),
            TempInsn::Branch { source, .. } => of_one(*source, k),
            TempInsn::ObjectAddress { .. } => None,
            TempInsn::FromFixed { .. } => None,
            TempInsn::SetFixed { .. } => None,
            TempInsn::ReadArgument { .. } => None,
            TempInsn::Jump { .. } => None,
            TempInsn::Call { .. } => None,
            TempInsn::Divide { .. } => None,
            TempInsn::Serve { .. } => None,
            TempInsn::Return { .. } => None,
            TempInsn::Mark => None,
        }
    }

    fn write_at(&self, k: u32) -> Option<u32> {
        match self {
            TempInsn::Address { destination, .. } => of_one(*destination, k),
            TempInsn::ObjectAddress { destination, .. } => of_one(*destination, k),
            TempInsn::Load { destination, .. } => of_one(*destination, k),
            TempInsn::Operate { destination, .. } => of_one(*destination, k),
            TempInsn::Extend { destination, .. } => of_one(*destination, k),
            TempInsn::FromFixed { destination, .. } => of_one(*destination, k),
            TempInsn::ReadArgument { destination, .. } => of_one(*destination, k),
            TempInsn::Store { .. } => None,
            TempInsn::ToFixed { .. } => None,
            TempInsn::SetFixed { .. } => None,
            TempInsn::WriteArgument { .. } => None,
            TempInsn::Branch { .. } => None,
            TempInsn::Jump { .. } => None,
            TempInsn::Call { .. } => None,
            TempInsn::Divide { .. } => None,
            TempInsn::Serve { .. } => None,
            TempInsn::Return { .. } => None,
            TempInsn::Mark => None,
        }
    }

    fn target_at(&self, k: u32) -> Option<u32> {
        match self {
            TempInsn::Branch { block, .. } => of_one(*block, k),
            TempInsn::Jump { block } => of_one(*block, k),
            _ => None,
        }
    }

    fn set_target(&mut self, k: u32, block: u32) {
        match self {
            TempInsn::Branch { block: old, .. } => *old = block,
            TempInsn::Jump { block: old } => *old = block,
            _ => {}
        }
    }

    fn jump(_alloc: Global, block: u32) -> TempInsn {
        TempInsn::Jump { block }
    }

    fn goes_on(&self) -> bool {
        match self {
            TempInsn::Jump { .. } => false,
            TempInsn::Return { .. } => false,
            _ => true,
        }
    }

    fn may_trap(&self) -> bool {
        match self {
            TempInsn::Operate { op, .. } => is_checked(*op),
            TempInsn::Divide { .. } => true,
            TempInsn::Serve { service } => is_trap(*service),
            _ => false,
        }
    }
}
