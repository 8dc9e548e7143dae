//! Which temporary has its place in each register.

ghost use Rattle.std.specs.Prelude.{◌≡◌, ◌<◌, All, length, slice_get, IfSome};
ghost use Rattle.alloc_model.specs.Faithful.{IsGivenRegister, named_registers};
ghost use Rattle.alloc_rules.specs.Visits as visits;
ghost use Rattle.alloc_journal.specs.model.Holders.{holder_in, register_in, behind_move, behind_moves, cleared, left_below, written_pairs, pairs_written, all_come};
ghost use Rattle.alloc_journal.specs.model.Holders as model;

use alloc_model::allocation::Transfer;
use alloc_plain_lists::read_count;
use binpack_blocks::bins::GIVEN;
use binpack_blocks::registers::takes_away;
use pass_core::Insn;
use temp_ir::insn::TempInsn;

/// A temporary that an instruction writes, with the register that is stated for it.
#[derive(Clone, Copy)]
pub(crate) struct Written {
    pub(crate) temp: u32,
    pub(crate) register: u8,
}

/// Whether a register has a temporary.
pub(crate) fn is_in(holder: Option<u32>, temp: u32) -> bool
    ensures { result ≡ model.is_in holder temp }
{
    match holder {
        None => false,
        Some(other) => other == temp,
    }
}

/// The temporary that a register has, if it has one.
pub(crate) fn holder_at(holders: &[Option<u32>], r: u8) -> Option<u32>
    requires { r < length holders.now }
    ensures { result ≡ holder_in holders.now r }
{
    holders[r as usize]
}

/// The register of a temporary, if it has one.
#[tactic(auto, using(crate::proofs::Tables::register_next, crate::proofs::Tables::register_found, crate::proofs::Tables::register_end))]
pub(crate) fn register_of(holders: &[Option<u32>], temp: u32) -> Option<u8>
    requires { length holders.now ≡ 26 }
    ensures within { IfSome result (λ r. r < 26) }
    ensures register { result ≡ register_in holders.now temp }
{
    for r in 0..GIVEN {
        if is_in(holder_at(holders, r), temp) {
            return Some(r);
        }
    }
    None
}

/// A register has no temporary any more, if there is one.
fn leave(holders: &mut [Option<u32>], register: Option<u8>)
    requires many { length holders.old ≡ 26 }
    requires given { IfSome register (λ r. r < 26) }
    ensures { holders.new ≡ model.without register holders.old }
{
    match register {
        None => {}
        Some(r) => holders[r as usize] = None,
    }
}

/// A temporary comes to a register, and has no other one then.
fn come(holders: &mut [Option<u32>], r: u8, temp: u32)
    requires many { length holders.old ≡ 26 }
    requires given { r < 26 }
    ensures { holders.new ≡ model.comes r temp holders.old }
{
    let register = register_of(holders, temp);
    leave(holders, register);
    holders[r as usize] = Some(temp);
}

/// What registers have behind a transfer.
fn move_one(holders: &mut [Option<u32>], transfer: Transfer)
    requires many { length holders.old ≡ 26 }
    requires given { All IsGivenRegister (named_registers transfer) }
    ensures { holders.new ≡ behind_move transfer holders.old }
{
    match transfer {
        Transfer::Store { .. } => {}
        Transfer::Load { temp, reg } => come(holders, reg, temp),
        Transfer::Shift { temp, to, .. } => come(holders, to, temp),
    }
}

/// What registers have behind transfers.
#[tactic(auto, using(crate::proofs::Tables::moves_next, crate::proofs::Tables::moves_end))]
pub(crate) fn move_all(holders: &mut [Option<u32>], transfers: &[Transfer])
    requires many { length holders.old ≡ 26 }
    requires given { All (λ x. All IsGivenRegister (named_registers x)) transfers.now }
    ensures { holders.new ≡ behind_moves transfers.now holders.old }
{
    for transfer in transfers {
        move_one(holders, *transfer);
    }
}

/// A register has no temporary any more, if an instruction takes it away.
fn leave_any(holders: &mut [Option<u32>], insn: &TempInsn, r: u8)
    requires { r < length holders.old }
    ensures { holders.new ≡ cleared (visits.takes_away insn.now r) r holders.old }
{
    if takes_away(insn, r) {
        holders[r as usize] = None;
    }
}

/// What registers have behind what an instruction takes away.
#[tactic(auto, using(crate::proofs::Tables::left_begins, crate::proofs::Tables::left_next))]
pub(crate) fn leave_all(holders: &mut [Option<u32>], insn: &TempInsn)
    requires { length holders.old ≡ 26 }
    ensures { holders.new ≡ left_below insn.now 26 holders.old }
{
    for r in 0..GIVEN {
        leave_any(holders, insn, r);
    }
}

/// The register with a number, if there are so many.
fn register_at(registers: &[u8], place: u8) -> Option<u8>
    ensures { result ≡ slice_get registers.now place }
{
    registers.get(place as usize).copied()
}

/// The register with a number among those of an instruction, if there is one.
fn register_with(registers: &[u8], place: u8) -> Option<u8>
    requires { All IsGivenRegister registers.now }
    ensures register { result ≡ slice_get registers.now place }
    ensures given { IfSome result (λ r. r < 26) }
{
    register_at(registers, place)
}

/// What an instruction with these registers writes.
#[tactic(auto, using(crate::proofs::Tables::none_written, crate::proofs::Tables::none_stated, crate::proofs::Tables::one_written))]
pub(crate) fn written_with(insn: &TempInsn, registers: &[u8]) -> Option<Written>
    requires { All IsGivenRegister registers.now }
    ensures pairs { written_pairs result ≡ pairs_written insn.now registers.now }
    ensures given { IfSome result (λ w. w.register < 26) }
{
    match insn.write_at(0) {
        None => None,
        Some(temp) => match register_with(registers, read_count(insn)) {
            None => None,
            Some(register) => Some(Written { temp, register }),
        },
    }
}

/// What is written comes to its register.
pub(crate) fn write(holders: &mut [Option<u32>], written: Option<Written>)
    requires many { length holders.old ≡ 26 }
    requires given { IfSome written (λ w. w.register < 26) }
    ensures { holders.new ≡ all_come (written_pairs written) holders.old }
{
    match written {
        None => {}
        Some(w) => come(holders, w.register, w.temp),
    }
}
