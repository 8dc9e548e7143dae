//! What instructions name: registers, blocks, and where they go on.

ghost use Rattle.std.specs.Prelude.{◌≡◌, ℕ, [], ◌∷◌, slice_get, Option};
ghost use Rattle.suifvm_ir.specs.Insns as insns;
ghost use Rattle.suifvm_ir.specs.model.Targets.{insn_laws};

use crate::insn::{TypedRegister, VmBinaryOp, VmBuiltin, VmCallee, VmInsn, VmUnaryOp};
use crate::types::VmType;
use pass_core::Insn;
use std::alloc::Global;

/// The register with a number in a list of one.
pub fn of_one(register: u32, k: u32) -> Option<u32>
    ensures { result ≡ slice_get (register ∷ []) k }
{
    if k == 0 { Some(register) } else { None }
}

/// The register with a number in a list of two.
pub fn of_two(first: u32, second: u32, k: u32) -> Option<u32>
    ensures { result ≡ slice_get (first ∷ second ∷ []) k }
{
    match k {
        0 => Some(first),
        1 => Some(second),
        _ => None,
    }
}

/// The register of a call's result.
fn of_named(destination: Option<u32>, k: u32) -> Option<u32>
    ensures { result ≡ slice_get (insns.named_register destination) k }
{
    match destination {
        None => None,
        Some(register) => of_one(register, k),
    }
}

/// The register of what a return gives.
fn of_returned(value: Option<TypedRegister>, k: u32) -> Option<u32>
    ensures { result ≡ slice_get (insns.returned_register value) k }
{
    match value {
        None => None,
        Some(value) => of_one(value.register, k),
    }
}

/// Whether numbers of the type have signs.
fn is_signed(ty: VmType) -> bool
    ensures { result ≡ insns.is_signed ty }
{
    matches!(ty, VmType::S32 | VmType::S64)
}

/// Whether an operation on one register of the type may trap.
fn unary_may_trap(op: VmUnaryOp, ty: VmType) -> bool
    ensures { result ≡ insns.unary_may_trap op ty }
{
    match op {
        VmUnaryOp::Move | VmUnaryOp::Complement => false,
        VmUnaryOp::Negate => is_signed(ty),
    }
}

/// Whether an operation on two registers of the type may trap.
fn binary_may_trap(op: VmBinaryOp, ty: VmType) -> bool
    ensures { result ≡ insns.binary_may_trap op ty }
{
    match op {
        VmBinaryOp::Add | VmBinaryOp::Subtract | VmBinaryOp::Multiply => is_signed(ty),
        VmBinaryOp::Divide | VmBinaryOp::Remainder => true,
        VmBinaryOp::And | VmBinaryOp::Or | VmBinaryOp::ExclusiveOr => false,
    }
}

/// Whether a call itself is a trap.
fn call_may_trap(callee: VmCallee) -> bool
    ensures { result ≡ insns.call_may_trap callee }
{
    match callee {
        VmCallee::Builtin(VmBuiltin::Abort) => true,
        VmCallee::Builtin(VmBuiltin::PutChar | VmBuiltin::GetChar | VmBuiltin::Exit) => false,
        VmCallee::Function(_) => false,
    }
}

impl Insn for VmInsn {
    ghost reads = { insns.reads_of };

    ghost writes = { insns.writes_of };

    ghost targets = { insns.targets_of };

    ghost with_target = { insns.with_block };

    ghost jump_to = { insns.jump_of };

    ghost flows_on = { insns.flows_on_of };

    ghost traps = { insns.may_trap_of };

    ghost lawful = { insn_laws };

    fn read_at(&self, k: u32) -> Option<u32> {
        match self {
            VmInsn::Load { pointer, .. } => of_one(*pointer, k),
            VmInsn::Store { pointer, value, .. } => of_two(*pointer, *value, k),
            VmInsn::Copy { to, from, .. } => of_two(*to, *from, k),
            VmInsn::Unary { source, .. } => of_one(*source, k),
            VmInsn::Binary { left, right, .. } => of_two(*left, *right, k),
            VmInsn::Shift { source, count, .. } => of_two(*source, *count, k),
            VmInsn::Convert { source, .. } => of_one(*source, k),
            VmInsn::Compare { left, right, .. } => of_two(*left, *right, k),
            VmInsn::Branch { source, .. } => of_one(*source, k),
            VmInsn::Call { arguments, .. } => arguments.as_slice().get(k as usize).copied(),
            VmInsn::Return { value } => of_returned(*value, k),
            VmInsn::LoadConstant { .. } => None,
            VmInsn::LoadAddress { .. } => None,
            VmInsn::Jump { .. } => None,
            VmInsn::Mark => None,
            VmInsn::Nop => None,
        }
    }

    fn write_at(&self, k: u32) -> Option<u32> {
        match self {
            VmInsn::LoadConstant { destination, .. } => of_one(*destination, k),
            VmInsn::LoadAddress { destination, .. } => of_one(*destination, k),
            VmInsn::Load { destination, .. } => of_one(*destination, k),
            VmInsn::Unary { destination, .. } => of_one(*destination, k),
            VmInsn::Binary { destination, .. } => of_one(*destination, k),
            VmInsn::Shift { destination, .. } => of_one(*destination, k),
            VmInsn::Convert { destination, .. } => of_one(*destination, k),
            VmInsn::Compare { destination, .. } => of_one(*destination, k),
            VmInsn::Call { destination, .. } => of_named(*destination, k),
            VmInsn::Store { .. } => None,
            VmInsn::Copy { .. } => None,
            VmInsn::Branch { .. } => None,
            VmInsn::Jump { .. } => None,
            VmInsn::Return { .. } => None,
            VmInsn::Mark => None,
            VmInsn::Nop => None,
        }
    }

    fn target_at(&self, k: u32) -> Option<u32> {
        match self {
            VmInsn::Branch { block, .. } => of_one(*block, k),
            VmInsn::Jump { block } => of_one(*block, k),
            _ => None,
        }
    }

    fn set_target(&mut self, k: u32, block: u32) {
        match self {
            VmInsn::Branch { block: old, .. } => *old = block,
            VmInsn::Jump { block: old } => *old = block,
            _ => {}
        }
    }

    fn jump(_alloc: Global, block: u32) -> VmInsn {
        VmInsn::Jump { block }
    }

    fn goes_on(&self) -> bool {
        match self {
            VmInsn::Jump { .. } => false,
            VmInsn::Return { .. } => false,
            _ => true,
        }
    }

    fn may_trap(&self) -> bool {
        match self {
            VmInsn::Unary { op, ty, .. } => unary_may_trap(*op, *ty),
            VmInsn::Binary { op, ty, .. } => binary_may_trap(*op, *ty),
            VmInsn::Call { callee, .. } => call_may_trap(*callee),
            _ => false,
        }
    }
}
