//! What is known of registers at a place of a block.

ghost use Rattle.std.specs.Prelude.{◌≡◌};
ghost use Rattle.suifvm_zero_branches.specs.Tests as tests;

use suifvm_ir::insn::{CompareOp, VmInsn};
use suifvm_ir::types::VmType;

/// What the instruction before a place says of registers.
#[derive(Clone, Copy, Debug, PartialEq, Eq)]
pub enum RegisterFact {
    Nothing,
    /// The register is zero.
    Zero(u32),
    /// The truth is 1 where the value, as one of the type, is neither zero nor null, and else 0.
    Tests { ty: VmType, truth: u32, value: u32 },
}

impl RegisterFact {
    /// The register that a branch on a register of a type may test in its place: the value of which it is the truth, or
    /// else itself.
    pub fn register(self, ty: VmType, source: u32) -> u32
        ensures { result ≡ tests.tested_register self ty source }
    {
        match self {
            RegisterFact::Nothing => source,
            RegisterFact::Zero(_) => source,
            RegisterFact::Tests {
                ty: _,
                truth,
                value,
            } => match ty {
                VmType::S32 => value_of(truth, value, source),
                VmType::U32 => source,
                VmType::S64 => source,
                VmType::U64 => source,
                VmType::P64 => source,
            },
        }
    }

    /// What is known behind an instruction.
    pub fn after(self, insn: &VmInsn) -> RegisterFact
        ensures { result ≡ tests.facts_after self insn.now }
    {
        match insn {
            VmInsn::LoadConstant {
                ty: _,
                destination,
                word,
            } => after_constant(*destination, *word),
            VmInsn::Compare {
                op,
                ty,
                destination,
                left,
                right,
            } => self.after_comparison(*op, *ty, *destination, *left, *right),
            VmInsn::LoadAddress { .. } => RegisterFact::Nothing,
            VmInsn::Load { .. } => RegisterFact::Nothing,
            VmInsn::Store { .. } => RegisterFact::Nothing,
            VmInsn::Copy { .. } => RegisterFact::Nothing,
            VmInsn::Unary { .. } => RegisterFact::Nothing,
            VmInsn::Binary { .. } => RegisterFact::Nothing,
            VmInsn::Shift { .. } => RegisterFact::Nothing,
            VmInsn::Convert { .. } => RegisterFact::Nothing,
            VmInsn::Branch { .. } => RegisterFact::Nothing,
            VmInsn::Jump { .. } => RegisterFact::Nothing,
            VmInsn::Call { .. } => RegisterFact::Nothing,
            VmInsn::Return { .. } => RegisterFact::Nothing,
            VmInsn::Mark => RegisterFact::Nothing,
            VmInsn::Nop => RegisterFact::Nothing,
        }
    }

    /// What is known behind a comparison.
    fn after_comparison(
        self,
        op: CompareOp,
        ty: VmType,
        destination: u32,
        left: u32,
        right: u32,
    ) -> RegisterFact
        ensures { result ≡ tests.after_comparison self op ty destination left right }
    {
        match self {
            RegisterFact::Nothing => RegisterFact::Nothing,
            RegisterFact::Zero(zero) => match op {
                CompareOp::Equal => RegisterFact::Nothing,
                CompareOp::NotEqual => after_test(zero, ty, destination, left, right),
                CompareOp::Less => RegisterFact::Nothing,
                CompareOp::LessOrEqual => RegisterFact::Nothing,
            },
            RegisterFact::Tests { .. } => RegisterFact::Nothing,
        }
    }
}

/// The value where the register is its truth, or else the register.
fn value_of(truth: u32, value: u32, register: u32) -> u32
    ensures { result ≡ tests.tested_value truth value register }
{
    if register == truth { value } else { register }
}

/// What is known behind a constant.
fn after_constant(destination: u32, word: u64) -> RegisterFact
    ensures { result ≡ tests.after_constant destination word }
{
    if word == 0 {
        RegisterFact::Zero(destination)
    } else {
        RegisterFact::Nothing
    }
}

/// What is known behind a test for inequality, where a register is zero.
fn after_test(zero: u32, ty: VmType, destination: u32, left: u32, right: u32) -> RegisterFact
    ensures { result ≡ tests.after_test zero ty destination left right }
{
    if right != zero {
        return RegisterFact::Nothing;
    }
    if destination == left {
        return RegisterFact::Nothing;
    }
    RegisterFact::Tests {
        ty,
        truth: destination,
        value: left,
    }
}
