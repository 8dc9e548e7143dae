//! Which temporaries have their places in registers.

ghost use Rattle.std.specs.Prelude.{◌≡◌, ◌+◌, ◌<◌, List, ℕ, length, IfSome};
ghost use Rattle.temp_ir.specs.Insns.{reads_of, writes_of};
ghost use Rattle.alloc_model.specs.Effect.{calls_function};
ghost use Rattle.alloc_plain.specs.model.Held.{register_in, come, held_at_top, Holds};
ghost use Rattle.alloc_plain.specs.model.Held as model;
ghost use Rattle.alloc_plain.specs.model.Next as next;

use alloc_plain_lists::read_count;
use bk_bits::BitSet;
use pass_core::Insn;
use temp_ir::insn::TempInsn;

/// The temporaries whose places are registers 1, 2 and 3.
#[derive(Clone, Copy)]
pub(crate) struct HeldTemporaries {
    pub(crate) first: Option<u32>,
    pub(crate) second: Option<u32>,
    pub(crate) third: Option<u32>,
}

/// No register has a temporary.
pub(crate) fn nothing_held() -> HeldTemporaries
    ensures { result ≡ model.nothing_held }
{
    HeldTemporaries {
        first: None,
        second: None,
        third: None,
    }
}

/// Whether a register has a temporary.
fn is_in(holder: Option<u32>, temp: u32) -> bool
    ensures { result ≡ model.is_in holder temp }
{
    match holder {
        None => false,
        Some(other) => other == temp,
    }
}

/// The register of a temporary, if it has one.
pub(crate) fn register_of(held: HeldTemporaries, temp: u32) -> Option<u8>
    ensures { result ≡ register_in held temp }
{
    if is_in(held.first, temp) {
        return Some(1);
    }
    if is_in(held.second, temp) {
        return Some(2);
    }
    if is_in(held.third, temp) {
        return Some(3);
    }
    None
}

/// What a register has without a temporary.
fn without_temp(temp: u32, holder: Option<u32>) -> Option<u32>
    ensures { result ≡ model.without_temp temp holder }
{
    match holder {
        None => None,
        Some(other) => { if other == temp { None } else { Some(other) } }
    }
}

/// What a register has behind a temporary that comes there or to another one.
fn holder_behind(here: bool, temp: u32, holder: Option<u32>) -> Option<u32>
    ensures { result ≡ model.holder_behind here temp holder }
{
    if here {
        Some(temp)
    } else {
        without_temp(temp, holder)
    }
}

/// A temporary comes to a register.
fn comes(held: HeldTemporaries, register: u8, temp: u32) -> HeldTemporaries
    ensures { result ≡ model.comes register temp held }
{
    HeldTemporaries {
        first: holder_behind(register == 1, temp, held.first),
        second: holder_behind(register == 2, temp, held.second),
        third: holder_behind(register == 3, temp, held.third),
    }
}

/// What an instruction reads comes to registers 1 and 2.
#[tactic(auto, using(crate::proofs::Comes::none_comes, crate::proofs::Comes::one_comes, crate::proofs::Comes::two_come))]
fn reads_come(held: HeldTemporaries, insn: &TempInsn) -> HeldTemporaries
    ensures { result ≡ come (reads_of insn.now) 1 held }
{
    match insn.read_at(0) {
        None => held,
        Some(first) => {
            let one = comes(held, 1, first);
            match insn.read_at(1) {
                None => one,
                Some(second) => comes(one, 2, second),
            }
        }
    }
}

/// Whether an instruction calls a function.
fn calls(insn: &TempInsn) -> bool
    ensures { result ≡ calls_function insn.now }
{
    matches!(insn, TempInsn::Call { .. })
}

/// What is held behind the transfers before an instruction and what it ends.
pub(crate) fn held_left(held: HeldTemporaries, insn: &TempInsn) -> HeldTemporaries
    ensures { result ≡ model.held_left insn.now held }
{
    if calls(insn) {
        nothing_held()
    } else {
        reads_come(held, insn)
    }
}

/// What is held behind what an instruction writes, where this was held before that.
#[tactic(auto, using(crate::proofs::Comes::none_written, crate::proofs::Comes::one_written))]
pub(crate) fn writes_come(left: HeldTemporaries, insn: &TempInsn) -> HeldTemporaries
    ensures { result ≡ come (writes_of insn.now) (1 + length (reads_of insn.now)) left }
{
    match insn.write_at(0) {
        None => left,
        Some(temp) => comes(left, 1 + read_count(insn), temp),
    }
}

/// What a register has at a block's top, where that has its slot.
fn unless_live(live: &BitSet, holder: Option<u32>) -> Option<u32>
    requires { IfSome holder (λ t. t < length live.now) }
    ensures { result ≡ model.unless_live live.now holder }
{
    match holder {
        None => None,
        Some(temp) => { if live.test(temp) { None } else { Some(temp) } }
    }
}

/// What is held at a block's top, where what is live there has its slot.
pub(crate) fn at_top(held: HeldTemporaries, live: &BitSet) -> HeldTemporaries
    requires { Holds (λ t. t < length live.now) held }
    ensures { result ≡ held_at_top live.now held }
{
    HeldTemporaries {
        first: unless_live(live, held.first),
        second: unless_live(live, held.second),
        third: unless_live(live, held.third),
    }
}

/// The lower one of a temporary and another one, if there is another one.
fn lower(best: Option<u32>, temp: u32) -> Option<u32>
    ensures { result ≡ next.lower best temp }
{
    match best {
        None => Some(temp),
        Some(other) => {
            if temp < other {
                Some(temp)
            } else {
                Some(other)
            }
        }
    }
}

/// The lower one of those that are at least a number, of what was found so far and what a register has.
fn sooner(from: u32, best: Option<u32>, holder: Option<u32>) -> Option<u32>
    ensures { result ≡ next.sooner from best holder }
{
    match holder {
        None => best,
        Some(temp) => { if temp < from { best } else { lower(best, temp) } }
    }
}

/// The lowest one of those that are at least a number, of what was found so far and what is held.
fn soonest(from: u32, best: Option<u32>, held: HeldTemporaries) -> Option<u32>
    ensures { result ≡ next.soonest from best held }
{
    let first = sooner(from, best, held.first);
    let second = sooner(from, first, held.second);
    sooner(from, second, held.third)
}

/// The lowest temporary from a number on that is held before or behind something, if there is one.
pub(crate) fn next_held(from: u32, before: HeldTemporaries, behind: HeldTemporaries) -> Option<u32>
    ensures { result ≡ next.next_held from before behind }
{
    soonest(from, soonest(from, None, before), behind)
}
