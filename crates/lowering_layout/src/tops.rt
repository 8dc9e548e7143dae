//! The registers that instructions name. No call takes memory.

ghost use Rattle.std.specs.Prelude.{◌≡◌, ◌+◌, [], ◌∷◌};
ghost use Rattle.suifvm_ir.specs.Insns.{named_register, returned_register};
ghost use Rattle.lowering_layout.specs.Tops.{registers_top, insn_top};

use suifvm_ir::insn::{TypedRegister, VmInsn};

/// One more than a register.
fn behind(register: u32) -> u64
    ensures { result ≡ register + 1 }
{
    u64::from(register) + 1
}

fn destination_top(destination: Option<u32>) -> u64
    ensures { result ≡ registers_top (named_register destination) }
{
    match destination {
        None => 0,
        Some(register) => behind(register),
    }
}

fn value_top(value: Option<TypedRegister>) -> u64
    ensures { result ≡ registers_top (returned_register value) }
{
    match value {
        None => 0,
        Some(value) => behind(value.register),
    }
}

fn all(registers: &[u32]) -> u64
    ensures { result ≡ registers_top registers.now }
{
    let mut top = 0u64;
    let mut i = registers.len();
    while i > 0 {
        i -= 1;
        top = behind(registers[i]).max(top);
    }
    top
}

fn two(first: u32, second: u32) -> u64
    ensures { result ≡ registers_top (first ∷ second ∷ []) }
{
    behind(first).max(behind(second))
}

/// One more than the greatest register that an instruction names, or 0.
pub fn insn_top(insn: &VmInsn) -> u64
    ensures { result ≡ insn_top insn.now }
{
    match insn {
        VmInsn::LoadConstant { destination, .. } => behind(*destination),
        VmInsn::LoadAddress { destination, .. } => behind(*destination),
        VmInsn::Load {
            destination,
            pointer,
            ..
        } => two(*pointer, *destination),
        VmInsn::Store { pointer, value, .. } => two(*pointer, *value),
        VmInsn::Copy { to, from, .. } => two(*to, *from),
        VmInsn::Unary {
            destination,
            source,
            ..
        } => two(*source, *destination),
        VmInsn::Binary {
            destination,
            left,
            right,
            ..
        } => two(*left, *right).max(behind(*destination)),
        VmInsn::Shift {
            destination,
            source,
            count,
            ..
        } => two(*source, *count).max(behind(*destination)),
        VmInsn::Convert {
            destination,
            source,
            ..
        } => two(*source, *destination),
        VmInsn::Compare {
            destination,
            left,
            right,
            ..
        } => two(*left, *right).max(behind(*destination)),
        VmInsn::Branch { source, .. } => behind(*source),
        VmInsn::Jump { .. } => 0,
        VmInsn::Call {
            destination,
            arguments,
            ..
        } => all(arguments.as_slice()).max(destination_top(*destination)),
        VmInsn::Return { value } => value_top(*value),
        VmInsn::Mark => 0,
        VmInsn::Nop => 0,
    }
}
