//! What is moved between registers and slots before an instruction.

ghost use Rattle.std.specs.Prelude.{◌≡◌, ◌≢◌, ◌+◌, ◌*◌, ◌++◌, ◌<◌, ◌≤◌, ◌^◌, [], ◌∷◌, ℕ, true, false, Some, None, length, slice_set, IfSome, IfOk, OnOk};
ghost use Rattle.pass_core.specs.Functions.{UsesRegisters};
ghost use Rattle.temp_ir.specs.Insns.{reads_of, writes_of};
ghost use Rattle.temp_ir.specs.Fixed.{has_number};
ghost use Rattle.alloc_rules.specs.Visits.{fixes, names_temp};
ghost use Rattle.alloc_rules.specs.Visits as visits;
ghost use Rattle.alloc_model.specs.declared.allocation.Transfer.TheVariants as transfer;
ghost use Rattle.binpack_blocks.specs.declared.held.SlotCopy.TheVariants as copy;
ghost use Rattle.binpack_blocks.specs.model.Bins.{held_in, has_temp, held, must_store, IsNowhere};
ghost use Rattle.binpack_blocks.specs.model.Bins as model;
ghost use Rattle.binpack_blocks.specs.model.Choices.{AreOpen, is_open};
ghost use Rattle.binpack_blocks.specs.model.Rows.{is_wanted};
ghost use Rattle.binpack_blocks.specs.model.Steps.{Site, State, Steps, MayGet};
ghost use Rattle.binpack_blocks.specs.model.Scanning.{state_of, local_site};
ghost use Rattle.binpack_blocks.specs.model.Visits.{AreHeld};
ghost use Rattle.binpack_blocks.specs.model.Wanted.{LifetimesRise};

use crate::bins::{GIVEN, Scan};
use crate::held::{Held, SlotCopy};
use crate::registers::takes_away;
use alloc_model::allocation::Transfer;
use alloc_rules::scan::Lifetimes;
use pass_core::Insn;
use std::alloc::{AllocError, Global};
use temp_ir::insn::TempInsn;

impl Scan {
    /// Loads a temporary into a register, which what stood there leaves.
    fn load(&mut self, temp: u32, r: u8, live: bool) -> Result<(), AllocError>
        requires given { r < 26 }
        requires low { temp < self.old.temps }
        requires nowhere { IsNowhere self.old.bins.items temp }
        requires saved { must_store live (held_in self.old.bins.items r) ≡ false }
        ensures steps { OnOk result ((s : Site) (u : State) → MayGet s r → s.temps ≡ self.old.temps → s.before temp ≡ true
            → live ≡ model.lives s.before (held_in self.old.bins.items r)
            → Steps s u (state_of self.old) → Steps s u (state_of self.new)) }
        ensures bins { OnOk result (self.new.bins.items ≡ slice_set self.old.bins.items r (Some (held temp copy.Twice))) }
        ensures count { OnOk result (length self.new.made.items ≤ length self.old.made.items + 1) }
        ensures temps { OnOk result (self.new.temps ≡ self.old.temps) }
    {
        self.rely(r, live);
        self.made.push(Transfer::Load { temp, reg: r })?;
        self.put(
            r,
            Held {
                temp,
                copy: SlotCopy::Twice,
            },
        );
        Ok(())
    }

    /// Brings a temporary that is read into a register, where it stands in none.
    fn bring(
        &mut self,
        temp: u32,
        insn: &TempInsn,
        lives: &Lifetimes,
        number: u32,
        standing: &[bool],
    ) -> Result<u8, AllocError>
        requires few { number < 2 ^ 30 }
        requires standing { length standing.now ≡ 32 }
        requires parts { length lives.now.parts ≡ self.old.temps }
        requires rise { LifetimesRise lives.now }
        requires open { AreOpen insn.now standing.now }
        requires low { temp < self.old.temps }
        requires wanted { is_wanted lives.now (2 * number) temp ≡ true }
        ensures steps { OnOk result ((u : State)
            → Steps (local_site self.old.temps lives.now number insn.now standing.now) u (state_of self.old)
            → Steps (local_site self.old.temps lives.now number insn.now standing.now) u (state_of self.new)) }
        ensures held { IfOk result (λ r. has_temp (held_in self.new.bins.items r) temp ≡ true) }
        ensures count { OnOk result (length self.new.made.items ≤ length self.old.made.items + 2) }
        ensures kept { OnOk result ((q m : ℕ) → names_temp insn.now m ≡ true → is_wanted lives.now (2 * number) m ≡ true
            → has_temp (held_in self.old.bins.items q) m ≡ true → has_temp (held_in self.new.bins.items q) m ≡ true) }
        ensures fixed { OnOk result ((q : ℕ) → fixes insn.now q ≡ true
            → held_in self.new.bins.items q ≡ held_in self.old.bins.items q) }
        ensures temps { OnOk result (self.new.temps ≡ self.old.temps) }
    {
        match self.register_of(temp) {
            Some(r) => Ok(r),
            None => {
                let r = self.choose(temp, insn, lives, 2 * number, standing);
                let live = self.lives_in(r, lives, 2 * number);
                self.save(r, live)?;
                self.load(temp, r, live)?;
                Ok(r)
            }
        }
    }

    /// Brings each temporary that is read into a register, and gives these in order.
    #[tactic(auto, using(crate::proofs::Bringing::none_held, crate::proofs::Bringing::one_held, crate::proofs::Bringing::two_held, crate::proofs::Bringing::is_read, crate::proofs::Bringing::read_is_named, crate::proofs::Bringing::is_below))]
    pub(crate) fn bring_all(
        &mut self,
        alloc: Global,
        insn: &TempInsn,
        lives: &Lifetimes,
        number: u32,
        standing: &[bool],
    ) -> Result<Vec<u8>, AllocError>
        requires few { number < 2 ^ 30 }
        requires standing { length standing.now ≡ 32 }
        requires parts { length lives.now.parts ≡ self.old.temps }
        requires rise { LifetimesRise lives.now }
        requires open { (t : ℕ) → names_temp insn.now t ≡ true → AreOpen insn.now standing.now }
        requires low { UsesRegisters reads_of writes_of self.old.temps insn.now }
        requires wanted { (t : ℕ) → has_number (reads_of insn.now) t ≡ true → is_wanted lives.now (2 * number) t ≡ true }
        ensures steps { OnOk result ((u : State)
            → Steps (local_site self.old.temps lives.now number insn.now standing.now) u (state_of self.old)
            → Steps (local_site self.old.temps lives.now number insn.now standing.now) u (state_of self.new)) }
        ensures held { IfOk result (λ regs. AreHeld (reads_of insn.now) regs.items self.new.bins.items) }
        ensures count { OnOk result (length self.new.made.items ≤ length self.old.made.items + 4) }
        ensures fixed { OnOk result ((q : ℕ) → fixes insn.now q ≡ true
            → held_in self.new.bins.items q ≡ held_in self.old.bins.items q) }
        ensures temps { OnOk result (self.new.temps ≡ self.old.temps) }
    {
        let mut regs = Vec::new(alloc);
        match insn.read_at(0) {
            None => Ok(regs),
            Some(first) => {
                let r = self.bring(first, insn, lives, number, standing)?;
                regs.push(r)?;
                match insn.read_at(1) {
                    None => Ok(regs),
                    Some(second) => {
                        let q = self.bring(second, insn, lives, number, standing)?;
                        regs.push(q)?;
                        Ok(regs)
                    }
                }
            }
        }
    }
}
