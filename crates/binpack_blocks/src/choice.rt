//! Which register a temporary gets.

ghost use Rattle.std.specs.Prelude.{◌≡◌, ◌<◌, ◌≤◌, ◌||◌, None, true, length, option_map, IfSome};
ghost use Rattle.alloc_model.specs.Faithful.{given_registers};
ghost use Rattle.alloc_rules.specs.Visits.{names_temp};
ghost use Rattle.binpack_blocks.specs.model.Bests.{best_register};
ghost use Rattle.binpack_blocks.specs.model.Bins.{held_in};
ghost use Rattle.binpack_blocks.specs.model.Choices.{AreOpen, CanLeave, Spares};
ghost use Rattle.binpack_blocks.specs.model.Choices as choices;
ghost use Rattle.binpack_blocks.specs.model.Rows.{is_wanted};
ghost use Rattle.binpack_blocks.specs.model.Spans as spans;
ghost use Rattle.binpack_blocks.specs.model.Wanted.{LifetimesRise, ReferencesRise};

use crate::bins::{GIVEN, Scan};
use crate::registers::fixes;
use crate::spans::is_shorter;
use crate::wanted::{next_reference, part_end};
use alloc_rules::scan::Lifetimes;
use pass_core::Insn;
use temp_ir::insn::TempInsn;

/// Whether one of what an instruction names is a temporary.
fn is_it(named: Option<u32>, temp: u32) -> bool
    ensures { result ≡ choices.is_it named temp }
{
    match named {
        None => false,
        Some(other) => other == temp,
    }
}

/// Whether one of two things is so.
fn either(first: bool, second: bool) -> bool
    ensures { result ≡ (first || second) }
{
    first || second
}

/// Whether an instruction names a temporary.
#[tactic(auto, using(crate::proofs::Names::names_are))]
fn is_named(insn: &TempInsn, temp: u32) -> bool
    ensures { result ≡ names_temp insn.now temp }
{
    let first = is_it(insn.read_at(0), temp);
    let second = is_it(insn.read_at(1), temp);
    let written = is_it(insn.write_at(0), temp);
    either(either(first, second), written)
}

/// Whether an instruction leaves a register alone, and no fixed value stands there behind it.
fn is_open(insn: &TempInsn, r: u8, standing: &[bool]) -> bool
    requires given { r < 26 }
    requires standing { length standing.now ≡ 32 }
    ensures { result ≡ choices.is_open insn.now standing.now r }
{
    !fixes(insn, r) && !standing[r as usize]
}

/// Whether the first of two temporaries leaves, with their next references: its own is farther, or as far, and it has
/// the lower number. A missing one is farther than any.
fn leaves_first(next: Option<u32>, other_next: Option<u32>, temp: u32, other: u32) -> bool
    ensures { result ≡ choices.leaves_first next other_next temp other }
{
    is_shorter(other_next, next) || (!is_shorter(next, other_next) && temp < other)
}

/// Whether the first of two temporaries leaves, which are in registers at a point.
fn is_wanted_later(lives: &Lifetimes, temp: u32, other: u32, point: u32) -> bool
    ensures { ReferencesRise lives.now → result ≡ choices.leaves_first
        (spans.next_reference lives.now point temp) (spans.next_reference lives.now point other) temp other }
{
    let next = next_reference(lives, temp, point);
    let other_next = next_reference(lives, other, point);
    leaves_first(next, other_next, temp, other)
}

impl Scan {
    /// Whether a register is free where these are present.
    pub(crate) fn is_free(
        &self,
        r: u8,
        insn: &TempInsn,
        lives: &Lifetimes,
        point: u32,
        standing: &[bool],
    ) -> bool
        requires given { r < 26 }
        requires standing { length standing.now ≡ 32 }
        requires parts { length lives.now.parts ≡ self.now.temps }
        requires rise { LifetimesRise lives.now }
        ensures { result ≡ choices.is_free insn.now standing.now (is_wanted lives.now point) self.now.bins.items r }
    {
        is_open(insn, r, standing) && !self.lives_in(r, lives, point)
    }

    /// Whether what stands in a register may leave it.
    fn is_leavable(&self, r: u8, insn: &TempInsn, standing: &[bool]) -> bool
        requires given { r < 26 }
        requires standing { length standing.now ≡ 32 }
        ensures { result ≡ choices.is_leavable insn.now standing.now self.now.bins.items r }
    {
        match self.holder(r) {
            None => false,
            Some(held) => is_open(insn, r, standing) && !is_named(insn, held.temp),
        }
    }

    /// Whether what stands in a register leaves before what stands in another one.
    fn is_farther(&self, r: u8, other: u8, lives: &Lifetimes, point: u32) -> bool
        requires first { r < 26 }
        requires second { other < 26 }
        ensures { ReferencesRise lives.now → result ≡ choices.is_farther (spans.next_reference lives.now point)
            (held_in self.now.bins.items r) (held_in self.now.bins.items other) }
    {
        match self.holder(r) {
            None => false,
            Some(held) => match self.holder(other) {
                None => false,
                Some(best) => is_wanted_later(lives, held.temp, best.temp, point),
            },
        }
    }

    /// The register of the one that leaves, of what was found so far and one more.
    fn farther(&self, best: Option<u8>, r: u8, lives: &Lifetimes, point: u32) -> u8
        requires given { r < 26 }
        requires found { IfSome best (λ q. q < 26) }
        ensures either { choices.IsEither best r result }
        ensures farther { ReferencesRise lives.now
            → result ≡ choices.farther (spans.next_reference lives.now point) self.now.bins.items best r }
    {
        match best {
            None => r,
            Some(other) => {
                if self.is_farther(r, other, lives, point) {
                    r
                } else {
                    other
                }
            }
        }
    }

    /// What was found so far, with one more register that may be left or not.
    fn consider(
        &self,
        best: Option<u8>,
        r: u8,
        insn: &TempInsn,
        lives: &Lifetimes,
        point: u32,
        standing: &[bool],
    ) -> Option<u8>
        requires given { r < 26 }
        requires standing { length standing.now ≡ 32 }
        requires found { IfSome best (λ q. CanLeave insn.now standing.now self.now.bins.items q) }
        ensures leaves { IfSome result (λ q. CanLeave insn.now standing.now self.now.bins.items q) }
        ensures farther { ReferencesRise lives.now → result ≡ choices.considered (spans.next_reference lives.now point)
            (choices.is_leavable insn.now standing.now self.now.bins.items) self.now.bins.items best r }
    {
        if self.is_leavable(r, insn, standing) {
            Some(self.farther(best, r, lives, point))
        } else {
            best
        }
    }

    /// The register of the temporary that is wanted again last, of those that may leave.
    #[tactic(auto, using(crate::proofs::Farthest::none_below, crate::proofs::Farthest::one_below, crate::proofs::Farthest::all_below))]
    fn farthest(
        &self,
        insn: &TempInsn,
        lives: &Lifetimes,
        point: u32,
        standing: &[bool],
    ) -> Option<u8>
        requires standing { length standing.now ≡ 32 }
        ensures leaves { IfSome result (λ q. CanLeave insn.now standing.now self.now.bins.items q) }
        ensures farthest { ReferencesRise lives.now → result ≡ choices.farthest_below
            (spans.next_reference lives.now point)
            (choices.is_leavable insn.now standing.now self.now.bins.items) self.now.bins.items 26 }
    {
        let mut best = None;
        for r in 0..GIVEN {
            best = self.consider(best, r, insn, lives, point, standing);
        }
        best
    }

    /// Whether nothing stands in a register that the instruction names.
    fn is_idle(&self, r: u8, insn: &TempInsn) -> bool
        requires { r < 26 }
        ensures { result ≡ choices.is_idle insn.now (held_in self.now.bins.items r) }
    {
        match self.holder(r) {
            None => true,
            Some(held) => !is_named(insn, held.temp),
        }
    }

    /// One of the first registers, in which nothing stands that the instruction names.
    fn idle_register(&self, insn: &TempInsn) -> u8
        ensures within { 1 ≤ result × (result < 5) }
        ensures idle { choices.is_idle insn.now (held_in self.now.bins.items result) ≡ true }
    {
        for r in 1..5 {
            if self.is_idle(r, insn) {
                return r;
            }
        }
        unreachable!()
    }

    /// The register that a temporary gets at a point: the free one that is best for the part that it has there; where
    /// none is free, that of the temporary which is wanted again last.
    pub(crate) fn choose(
        &self,
        temp: u32,
        insn: &TempInsn,
        lives: &Lifetimes,
        point: u32,
        standing: &[bool],
    ) -> u8
        requires low { temp < self.now.temps }
        requires standing { length standing.now ≡ 32 }
        requires parts { length lives.now.parts ≡ self.now.temps }
        requires rise { LifetimesRise lives.now }
        requires open { AreOpen insn.now standing.now }
        ensures given { result < 26 }
        ensures open { choices.is_open insn.now standing.now result ≡ true }
        ensures spares { Spares insn.now (is_wanted lives.now point) self.now.bins.items result }
        ensures best { IfSome (best_register (spans.part_end lives.now point temp)
            (spans.span_end self.now.fixed lives.now point self.now.bins.items)
            (choices.is_free insn.now standing.now (is_wanted lives.now point) self.now.bins.items) given_registers)
            (λ r. result ≡ r) }
        ensures farthest { ReferencesRise lives.now → best_register (spans.part_end lives.now point temp)
            (spans.span_end self.now.fixed lives.now point self.now.bins.items)
            (choices.is_free insn.now standing.now (is_wanted lives.now point) self.now.bins.items) given_registers ≡ None
            → IfSome (choices.farthest_below (spans.next_reference lives.now point)
            (choices.is_leavable insn.now standing.now self.now.bins.items) self.now.bins.items 26) (λ r. result ≡ r) }
    {
        let end = part_end(lives, temp, point);
        match self.best_free(end, insn, lives, point, standing) {
            Some(free) => free.register,
            None => match self.farthest(insn, lives, point, standing) {
                Some(r) => r,
                None => self.idle_register(insn),
            },
        }
    }
}
