//! Which registers instructions want, from the last one on.

ghost use Rattle.std.specs.Prelude.{◌≡◌, ◌<◌, ◌^◌, ◌&&◌, ◌||◌, ◌==◌, not, ℕ, All, length, IfSome};
ghost use Rattle.pass_core.specs.Functions.{UsesRegisters};
ghost use Rattle.suifvm_ir.specs.Insns.{reads_of, writes_of};
ghost use Rattle.bk_bits.specs.Sets.{has};
ghost use Rattle.bitvector_flow.specs.Lives.{has_register};
ghost use Rattle.flow_clean.specs.Dead.{may_drop, is_self_move, is_unwanted};
ghost use Rattle.flow_clean.specs.model.Walks.{is_named, is_member_in, IsWantedBefore};

use bk_bits::BitSet;
use pass_core::Insn;
use suifvm_ir::insn::{VmInsn, VmUnaryOp};

/// Whether an instruction does nothing but write a register, and may not trap.
fn may_drop(insn: &VmInsn) -> bool
    ensures { result ≡ may_drop insn.now }
{
    match insn {
        VmInsn::LoadConstant { .. } => true,
        VmInsn::LoadAddress { .. } => true,
        VmInsn::Load { .. } => true,
        VmInsn::Unary { .. } => !insn.may_trap(),
        VmInsn::Binary { .. } => !insn.may_trap(),
        VmInsn::Shift { .. } => true,
        VmInsn::Convert { .. } => true,
        VmInsn::Compare { .. } => true,
        VmInsn::Store { .. } => false,
        VmInsn::Copy { .. } => false,
        VmInsn::Branch { .. } => false,
        VmInsn::Jump { .. } => false,
        VmInsn::Call { .. } => false,
        VmInsn::Return { .. } => false,
        VmInsn::Mark => false,
        VmInsn::Nop => false,
    }
}

/// Whether an instruction moves a register to itself.
fn is_self_move(insn: &VmInsn) -> bool
    ensures { result ≡ is_self_move insn.now }
{
    match insn {
        VmInsn::Unary {
            op: VmUnaryOp::Move,
            destination,
            source,
            ..
        } => *destination == *source,
        _ => false,
    }
}

/// Whether a register is a member, if there is one.
fn is_member(wanted: &BitSet, register: Option<u32>) -> bool
    requires { IfSome register (λ k. k < length wanted.now) }
    ensures { result ≡ is_member_in (has wanted.now) register }
{
    match register {
        None => false,
        Some(k) => wanted.test(k),
    }
}

/// Whether an instruction may be left out where these registers are wanted behind it.
#[tactic(auto, using(crate::proofs::WantedSets::self_unwanted, crate::proofs::WantedSets::not_dropped, crate::proofs::WantedSets::unwanted_by, crate::proofs::WantedSets::first_inside))]
pub(crate) fn is_unwanted(wanted: &BitSet, insn: &VmInsn) -> bool
    requires { All (λ register. register < length wanted.now) (writes_of insn.now) }
    ensures { result ≡ is_unwanted (has wanted.now) insn.now }
{
    if is_self_move(insn) {
        return true;
    }
    if !may_drop(insn) {
        return false;
    }
    !is_member(wanted, insn.write_at(0))
}

/// Takes a register out, if there is one.
#[tactic(auto, using(crate::proofs::WantedSets::has_removed))]
fn remove(wanted: &mut BitSet, register: Option<u32>)
    requires { IfSome register (λ k. k < length wanted.now) }
    ensures bound { length wanted.new ≡ length wanted.old }
    ensures members { (k : ℕ) → has wanted.new k ≡ (not (is_named register k) && has wanted.old k) }
{
    match register {
        None => {}
        Some(k) => wanted.remove(k),
    }
}

/// Puts a register in.
fn insert(wanted: &mut BitSet, register: u32)
    requires { register < length wanted.now }
    ensures bound { length wanted.new ≡ length wanted.old }
    ensures members { (k : ℕ) → has wanted.new k ≡ (has wanted.old k || (register == k)) }
{
    wanted.insert(register);
}

/// Puts the registers that an instruction reads in.
fn insert_reads(wanted: &mut BitSet, insn: &VmInsn)
    requires inside { All (λ register. register < length wanted.now) (reads_of insn.now) }
    requires few { length (reads_of insn.now) < 2 ^ 32 }
    ensures bound { length wanted.new ≡ length wanted.old }
    ensures members { (k : ℕ) → has wanted.new k ≡ (has wanted.old k || has_register (reads_of insn.now) k) }
{
    for k in 0..u32::MAX {
        match insn.read_at(k) {
            None => return,
            Some(register) => insert(wanted, register),
        }
    }
}

/// Makes of what is wanted behind an instruction what is wanted before it.
pub(crate) fn step_back(wanted: &mut BitSet, insn: &VmInsn)
    requires inside { UsesRegisters reads_of writes_of (length wanted.now) insn.now }
    requires few { length (reads_of insn.now) < 2 ^ 32 }
    ensures { IsWantedBefore insn.now wanted.old wanted.new }
{
    remove(wanted, insn.write_at(0));
    insert_reads(wanted, insn);
}
