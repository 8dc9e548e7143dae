//! The visit of an instruction.

ghost use Rattle.std.specs.Prelude.{◌≡◌, ◌≢◌, ◌+◌, ◌*◌, ◌<◌, ◌≤◌, ◌^◌, [], ◌∷◌, ℕ, true, false, Some, None, length, slice_set, IfOk, OnOk};
ghost use Rattle.pass_core.specs.Functions.{UsesRegisters};
ghost use Rattle.temp_ir.specs.Insns.{reads_of, writes_of};
ghost use Rattle.temp_ir.specs.Fixed.{has_number};
ghost use Rattle.alloc_rules.specs.Visits.{names_temp};
ghost use Rattle.alloc_rules.specs.Visits as visits;
ghost use Rattle.binpack_blocks.specs.model.Bins.{held_in, must_store, Leaves};
ghost use Rattle.binpack_blocks.specs.model.Bins as model;
ghost use Rattle.binpack_blocks.specs.model.Choices.{AreOpen};
ghost use Rattle.binpack_blocks.specs.model.Rows.{is_wanted, unmade};
ghost use Rattle.binpack_blocks.specs.model.Steps.{Site, State, Empties, Ends};
ghost use Rattle.binpack_blocks.specs.model.Scanning.{state_of, local_site, Gives, Acts};
ghost use Rattle.binpack_blocks.specs.model.Visits.{Visits};
ghost use Rattle.binpack_blocks.specs.model.Wanted.{LifetimesRise};

use crate::bins::{GIVEN, Scan};
use crate::held::{Held, SlotCopy};
use crate::registers::takes_away;
use alloc_model::allocation::Transfer;
use alloc_rules::scan::Lifetimes;
use bk_containers::Seq;
use pass_core::Insn;
use std::alloc::{AllocError, Global};
use temp_ir::insn::TempInsn;

/// What stands before an instruction, and its stated registers.
#[derive(Drop)]
pub(crate) struct Row {
    pub(crate) transfers: Seq<Transfer>,
    pub(crate) registers: Seq<u8>,
}

impl Scan {
    /// What stands in a register leaves it.
    fn empty(&mut self, r: u8, lives: &Lifetimes, point: u32)
        requires given { r < 26 }
        requires parts { length lives.now.parts ≡ self.old.temps }
        requires rise { LifetimesRise lives.now }
        requires saved { must_store (model.lives (is_wanted lives.now point) (held_in self.old.bins.items r))
            (held_in self.old.bins.items r) ≡ false }
        ensures leaves { Leaves (is_wanted lives.now point) (held_in self.old.bins.items r) self.old.relied self.new.relied }
        ensures bins { self.new.bins.items ≡ slice_set self.old.bins.items r None }
        ensures made { self.new.made ≡ self.old.made }
        ensures temps { self.new.temps ≡ self.old.temps }
    {
        let live = self.lives_in(r, lives, point);
        self.rely(r, live);
        self.clear(r);
    }

    /// So it does, if the instruction takes the register away.
    fn empty_any(&mut self, r: u8, insn: &TempInsn, lives: &Lifetimes, number: u32)
        requires given { r < 26 }
        requires few { number < 2 ^ 30 }
        requires parts { length lives.now.parts ≡ self.old.temps }
        requires rise { LifetimesRise lives.now }
        requires saved { visits.takes_away insn.now r ≡ true
            → must_store (model.lives (is_wanted lives.now (2 * number + 1)) (held_in self.old.bins.items r))
            (held_in self.old.bins.items r) ≡ false }
        ensures empties { (s : Site) (u : State) → s.insn ≡ insn.now → s.behind ≡ is_wanted lives.now (2 * number + 1)
            → Empties s u (state_of self.old) → Empties s u (state_of self.new) }
        ensures clear { visits.takes_away insn.now r ≡ true → held_in self.new.bins.items r ≡ None }
        ensures others { (q : ℕ) → q ≢ r → held_in self.new.bins.items q ≡ held_in self.old.bins.items q }
        ensures made { self.new.made ≡ self.old.made }
        ensures temps { self.new.temps ≡ self.old.temps }
    {
        if takes_away(insn, r) {
            self.empty(r, lives, 2 * number + 1);
        }
    }

    /// What stands in registers that the instruction takes away leaves them.
    fn empty_all(&mut self, insn: &TempInsn, lives: &Lifetimes, number: u32)
        requires few { number < 2 ^ 30 }
        requires parts { length lives.now.parts ≡ self.old.temps }
        requires rise { LifetimesRise lives.now }
        requires saved { (r : ℕ) → r < 26 → visits.takes_away insn.now r ≡ true
            → must_store (model.lives (is_wanted lives.now (2 * number + 1)) (held_in self.old.bins.items r))
            (held_in self.old.bins.items r) ≡ false }
        ensures ends { (s : Site) → s.insn ≡ insn.now → s.behind ≡ is_wanted lives.now (2 * number + 1)
            → Ends s (state_of self.old) (state_of self.new) }
        ensures made { self.new.made ≡ self.old.made }
        ensures temps { self.new.temps ≡ self.old.temps }
    {
        for r in 0..GIVEN {
            self.empty_any(r, insn, lives, number);
        }
    }

    /// A temporary that is written keeps its register, or gets one.
    fn give(
        &mut self,
        temp: u32,
        insn: &TempInsn,
        lives: &Lifetimes,
        number: u32,
        standing: &[bool],
    ) -> Result<u8, AllocError>
        requires few { number < 2 ^ 30 }
        requires standing { length standing.now ≡ 32 }
        requires parts { length lives.now.parts ≡ self.old.temps }
        requires rise { LifetimesRise lives.now }
        requires open { AreOpen insn.now standing.now }
        requires low { temp < self.old.temps }
        requires written { has_number (writes_of insn.now) temp ≡ true }
        ensures gives { IfOk result (λ r. Gives
            (local_site self.old.temps lives.now number insn.now standing.now) (state_of self.old) (state_of self.new) temp r) }
        ensures count { OnOk result (length self.new.made.items ≤ length self.old.made.items + 1) }
        ensures temps { OnOk result (self.new.temps ≡ self.old.temps) }
    {
        let own = Held {
            temp,
            copy: SlotCopy::Own,
        };
        match self.register_of(temp) {
            Some(r) => {
                self.put(r, own);
                Ok(r)
            }
            None => {
                let r = self.choose(temp, insn, lives, 2 * number + 1, standing);
                let live = self.lives_in(r, lives, 2 * number + 1);
                self.save(r, live)?;
                self.rely(r, live);
                self.put(r, own);
                Ok(r)
            }
        }
    }

    /// What stands in registers that the instruction takes away leaves them, and what it writes has a register, which
    /// is put behind those of what it reads.
    fn act(
        &mut self,
        registers: &mut Vec<u8>,
        insn: &TempInsn,
        lives: &Lifetimes,
        number: u32,
        standing: &[bool],
    ) -> Result<(), AllocError>
        requires few { number < 2 ^ 30 }
        requires standing { length standing.now ≡ 32 }
        requires parts { length lives.now.parts ≡ self.old.temps }
        requires rise { LifetimesRise lives.now }
        requires open { (t : ℕ) → names_temp insn.now t ≡ true → AreOpen insn.now standing.now }
        requires low { UsesRegisters reads_of writes_of self.old.temps insn.now }
        requires saved { (r : ℕ) → r < 26 → visits.takes_away insn.now r ≡ true
            → must_store (model.lives (is_wanted lives.now (2 * number + 1)) (held_in self.old.bins.items r))
            (held_in self.old.bins.items r) ≡ false }
        ensures acts { OnOk result (Acts (local_site self.old.temps lives.now number insn.now standing.now)
            (state_of self.old) (state_of self.new) registers.old.items registers.new.items) }
        ensures count { OnOk result (length self.new.made.items ≤ length self.old.made.items + 1) }
        ensures temps { OnOk result (self.new.temps ≡ self.old.temps) }
    {
        match insn.write_at(0) {
            None => {
                self.empty_all(insn, lives, number);
                Ok(())
            }
            Some(temp) => {
                let r = self.give(temp, insn, lives, number, standing)?;
                registers.push(r)?;
                Ok(())
            }
        }
    }

    /// Visits an instruction with a number, where a list says in which registers fixed values stand behind it.
    pub(crate) fn visit(
        &mut self,
        alloc: Global,
        insn: &TempInsn,
        lives: &Lifetimes,
        number: u32,
        standing: &[bool],
    ) -> Result<Row, AllocError>
        requires few { number < 2 ^ 30 }
        requires standing { length standing.now ≡ 32 }
        requires parts { length lives.now.parts ≡ self.old.temps }
        requires rise { LifetimesRise lives.now }
        requires open { (t : ℕ) → names_temp insn.now t ≡ true → AreOpen insn.now standing.now }
        requires low { UsesRegisters reads_of writes_of self.old.temps insn.now }
        requires wanted { (t : ℕ) → has_number (reads_of insn.now) t ≡ true → is_wanted lives.now (2 * number) t ≡ true }
        ensures visits { IfOk result (λ row. Visits (local_site self.old.temps lives.now number insn.now standing.now)
            (unmade (state_of self.old)) (state_of self.new) row.transfers row.registers) }
        ensures temps { OnOk result (self.new.temps ≡ self.old.temps) }
    {
        self.made.clear();
        self.fixed.pass(2 * number);
        self.fix_all(insn, lives, number, standing)?;
        let mut registers = self.bring_all(alloc, insn, lives, number, standing)?;
        self.act(&mut registers, insn, lives, number, standing)?;
        let transfers = Vec::from_slice(alloc, self.made.as_slice())?;
        Ok(Row {
            transfers: Seq::from_vec(transfers),
            registers: Seq::from_vec(registers),
        })
    }
}
