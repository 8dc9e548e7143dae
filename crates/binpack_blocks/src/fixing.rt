//! What stands in registers that an instruction takes away is moved or stored first.

ghost use Rattle.std.specs.Prelude.{◌≡◌, ◌≢◌, ◌+◌, ◌*◌, ◌++◌, ◌<◌, ◌≤◌, ◌^◌, [], ◌∷◌, ℕ, true, false, Some, None, List, Bool, length, slice_set, IfSome, IfNone, OnOk};
ghost use Rattle.alloc_rules.specs.Visits.{fixes};
ghost use Rattle.alloc_rules.specs.Visits as visits;
ghost use Rattle.alloc_model.specs.declared.allocation.Transfer.TheVariants as transfer;
ghost use Rattle.binpack_blocks.specs.model.Bins.{held_in, must_store};
ghost use Rattle.binpack_blocks.specs.model.Bins as model;
ghost use Rattle.binpack_blocks.specs.model.Choices as choices;
ghost use Rattle.binpack_blocks.specs.model.Rows as rows;
ghost use Rattle.binpack_blocks.specs.model.Rows.{is_wanted};
ghost use Rattle.binpack_blocks.specs.model.Steps.{Site, State, Steps, MayGet, taken, taken_below};
ghost use Rattle.binpack_blocks.specs.model.Scanning.{state_of, local_site};
ghost use Rattle.binpack_blocks.specs.model.Spans as spans;
ghost use Rattle.binpack_blocks.specs.model.Wanted.{LifetimesRise};

use crate::bins::{GIVEN, Scan};
use crate::held::Held;
use crate::registers::takes_away;
use crate::spans::reaches;
use crate::wanted::{is_wanted, part_end};
use alloc_model::allocation::Transfer;
use alloc_rules::scan::Lifetimes;
use std::alloc::AllocError;
use temp_ir::insn::TempInsn;

impl Scan {
    /// Moves what stands in a register to another one, in which nothing live stands.
    fn shift(&mut self, r: u8, held: Held, to: u8) -> Result<(), AllocError>
        requires there { held_in self.old.bins.items r ≡ Some held }
        requires from { r < 26 }
        requires given { to < 26 }
        requires apart { to ≢ r }
        ensures steps { OnOk result ((s : Site) (u : State) → fixes s.insn r ≡ true → s.before held.temp ≡ true → MayGet s to
            → model.lives s.before (held_in self.old.bins.items to) ≡ false
            → Steps s u (state_of self.old) → Steps s u (state_of self.new)) }
        ensures bins { OnOk result (self.new.bins.items
            ≡ slice_set (slice_set self.old.bins.items r None) to (Some held)) }
        ensures count { OnOk result (length self.new.made.items ≤ length self.old.made.items + 1) }
        ensures temps { OnOk result (self.new.temps ≡ self.old.temps) }
    {
        self.made.push(Transfer::Shift {
            temp: held.temp,
            from: r,
            to,
        })?;
        self.clear(r);
        self.put(to, held);
        Ok(())
    }

    /// A register that is free up to the end of the part of a temporary that is present at a point, if one is: the best
    /// of the free ones.
    #[tactic(auto, using(crate::proofs::Bringing::free_open))]
    fn refuge(
        &self,
        temp: u32,
        insn: &TempInsn,
        lives: &Lifetimes,
        point: u32,
        standing: &[bool],
    ) -> Option<u8>
        requires low { temp < self.now.temps }
        requires standing { length standing.now ≡ 32 }
        requires parts { length lives.now.parts ≡ self.now.temps }
        requires rise { LifetimesRise lives.now }
        ensures given { IfSome result (λ r. r < 26) }
        ensures open { IfSome result (λ r. choices.is_open insn.now standing.now r ≡ true) }
        ensures free { IfSome result (λ r. model.lives (is_wanted lives.now point) (held_in self.now.bins.items r) ≡ false) }
        ensures reaches { IfSome result (λ r. visits.reaches (spans.part_end lives.now point temp)
            (spans.span_end self.now.fixed lives.now point self.now.bins.items r) ≡ true) }
        ensures none { IfNone result ((r : ℕ) → r < 26
            → choices.is_free insn.now standing.now (is_wanted lives.now point) self.now.bins.items r ≡ true
            → visits.reaches (spans.part_end lives.now point temp)
            (spans.span_end self.now.fixed lives.now point self.now.bins.items r) ≡ false) }
    {
        let end = part_end(lives, temp, point);
        match self.best_free(end, insn, lives, point, standing) {
            None => None,
            Some(free) => {
                if reaches(end, free.end) {
                    Some(free.register)
                } else {
                    None
                }
            }
        }
    }

    /// Stores what stands in a register that the instruction takes away, where it is wanted behind the instruction.
    fn secure(
        &mut self,
        r: u8,
        insn: &TempInsn,
        lives: &Lifetimes,
        number: u32,
    ) -> Result<(), AllocError>
        requires given { r < 26 }
        requires takes { visits.takes_away insn.now r ≡ true }
        requires few { number < 2 ^ 30 }
        requires parts { length lives.now.parts ≡ self.old.temps }
        requires rise { LifetimesRise lives.now }
        ensures steps { OnOk result ((standing : List Bool) (u : State)
            → Steps (local_site self.old.temps lives.now number insn.now standing) u (state_of self.old)
            → Steps (local_site self.old.temps lives.now number insn.now standing) u (state_of self.new)) }
        ensures saved { OnOk result (must_store (model.lives (is_wanted lives.now (2 * number + 1))
            (held_in self.new.bins.items r)) (held_in self.new.bins.items r) ≡ false) }
        ensures fixed { OnOk result ((q : ℕ) → visits.takes_away insn.now q ≡ true → q ≢ r
            → held_in self.new.bins.items q ≡ held_in self.old.bins.items q) }
        ensures count { OnOk result (length self.new.made.items ≤ length self.old.made.items + 1) }
        ensures temps { OnOk result (self.new.temps ≡ self.old.temps) }
    {
        let behind = self.lives_in(r, lives, 2 * number + 1);
        self.save(r, behind)?;
        Ok(())
    }

    /// Moves what stands in a register that the instruction takes away to one that is free for it, or stores it where
    /// it is wanted behind the instruction.
    fn vacate(
        &mut self,
        r: u8,
        held: Held,
        insn: &TempInsn,
        lives: &Lifetimes,
        number: u32,
        standing: &[bool],
    ) -> Result<(), AllocError>
        requires there { held_in self.old.bins.items r ≡ Some held }
        requires given { r < 26 }
        requires takes { visits.takes_away insn.now r ≡ true }
        requires wanted { is_wanted lives.now (2 * number) held.temp ≡ true }
        requires few { number < 2 ^ 30 }
        requires standing { length standing.now ≡ 32 }
        requires parts { length lives.now.parts ≡ self.old.temps }
        requires rise { LifetimesRise lives.now }
        ensures steps { OnOk result ((u : State)
            → Steps (local_site self.old.temps lives.now number insn.now standing.now) u (state_of self.old)
            → Steps (local_site self.old.temps lives.now number insn.now standing.now) u (state_of self.new)) }
        ensures saved { OnOk result (must_store (model.lives (is_wanted lives.now (2 * number + 1))
            (held_in self.new.bins.items r)) (held_in self.new.bins.items r) ≡ false) }
        ensures fixed { OnOk result ((q : ℕ) → visits.takes_away insn.now q ≡ true → q ≢ r
            → held_in self.new.bins.items q ≡ held_in self.old.bins.items q) }
        ensures count { OnOk result (length self.new.made.items ≤ length self.old.made.items + 1) }
        ensures temps { OnOk result (self.new.temps ≡ self.old.temps) }
    {
        match self.refuge(held.temp, insn, lives, 2 * number, standing) {
            Some(to) => {
                self.shift(r, held, to)?;
                Ok(())
            }
            None => {
                self.secure(r, insn, lives, number)?;
                Ok(())
            }
        }
    }

    /// So it is done with what stands in a register, if something does.
    fn fix_one(
        &mut self,
        r: u8,
        insn: &TempInsn,
        lives: &Lifetimes,
        number: u32,
        standing: &[bool],
    ) -> Result<(), AllocError>
        requires given { r < 26 }
        requires takes { visits.takes_away insn.now r ≡ true }
        requires few { number < 2 ^ 30 }
        requires standing { length standing.now ≡ 32 }
        requires parts { length lives.now.parts ≡ self.old.temps }
        requires rise { LifetimesRise lives.now }
        ensures steps { OnOk result ((u : State)
            → Steps (local_site self.old.temps lives.now number insn.now standing.now) u (state_of self.old)
            → Steps (local_site self.old.temps lives.now number insn.now standing.now) u (state_of self.new)) }
        ensures saved { OnOk result (must_store (model.lives (is_wanted lives.now (2 * number + 1))
            (held_in self.new.bins.items r)) (held_in self.new.bins.items r) ≡ false) }
        ensures fixed { OnOk result ((q : ℕ) → visits.takes_away insn.now q ≡ true → q ≢ r
            → held_in self.new.bins.items q ≡ held_in self.old.bins.items q) }
        ensures count { OnOk result (length self.new.made.items ≤ length self.old.made.items + 1) }
        ensures temps { OnOk result (self.new.temps ≡ self.old.temps) }
    {
        match self.holder(r) {
            None => Ok(()),
            Some(held) => {
                if is_wanted(lives, held.temp, 2 * number) {
                    self.vacate(r, held, insn, lives, number, standing)?;
                    Ok(())
                } else {
                    self.secure(r, insn, lives, number)?;
                    Ok(())
                }
            }
        }
    }

    /// So it is done with a register, if the instruction takes it away.
    fn fix_any(
        &mut self,
        r: u8,
        insn: &TempInsn,
        lives: &Lifetimes,
        number: u32,
        standing: &[bool],
    ) -> Result<(), AllocError>
        requires given { r < 26 }
        requires few { number < 2 ^ 30 }
        requires standing { length standing.now ≡ 32 }
        requires parts { length lives.now.parts ≡ self.old.temps }
        requires rise { LifetimesRise lives.now }
        ensures steps { OnOk result ((u : State)
            → Steps (local_site self.old.temps lives.now number insn.now standing.now) u (state_of self.old)
            → Steps (local_site self.old.temps lives.now number insn.now standing.now) u (state_of self.new)) }
        ensures saved { OnOk result (visits.takes_away insn.now r ≡ true
            → must_store (model.lives (is_wanted lives.now (2 * number + 1))
            (held_in self.new.bins.items r)) (held_in self.new.bins.items r) ≡ false) }
        ensures fixed { OnOk result ((q : ℕ) → visits.takes_away insn.now q ≡ true → q ≢ r
            → held_in self.new.bins.items q ≡ held_in self.old.bins.items q) }
        ensures count { OnOk result (length self.new.made.items ≤ length self.old.made.items + taken insn.now r) }
        ensures temps { OnOk result (self.new.temps ≡ self.old.temps) }
    {
        if takes_away(insn, r) {
            self.fix_one(r, insn, lives, number, standing)?;
            Ok(())
        } else {
            Ok(())
        }
    }

    /// So it is done with each register that the instruction takes away, by rising number.
    pub(crate) fn fix_all(
        &mut self,
        insn: &TempInsn,
        lives: &Lifetimes,
        number: u32,
        standing: &[bool],
    ) -> Result<(), AllocError>
        requires few { number < 2 ^ 30 }
        requires standing { length standing.now ≡ 32 }
        requires parts { length lives.now.parts ≡ self.old.temps }
        requires rise { LifetimesRise lives.now }
        ensures steps { OnOk result ((u : State)
            → Steps (local_site self.old.temps lives.now number insn.now standing.now) u (state_of self.old)
            → Steps (local_site self.old.temps lives.now number insn.now standing.now) u (state_of self.new)) }
        ensures saved { OnOk result ((r : ℕ) → r < 26 → visits.takes_away insn.now r ≡ true
            → must_store (model.lives (is_wanted lives.now (2 * number + 1))
            (held_in self.new.bins.items r)) (held_in self.new.bins.items r) ≡ false) }
        ensures count { OnOk result (length self.new.made.items ≤ length self.old.made.items + taken_below insn.now 26) }
        ensures temps { OnOk result (self.new.temps ≡ self.old.temps) }
    {
        for r in 0..GIVEN {
            self.fix_any(r, insn, lives, number, standing)?;
        }
        Ok(())
    }
}
