//! What instructions do within a call.

ghost use Rattle.std.specs.Prelude.{◌≡◌, ◌+◌, ◌<◌, ◌∷◌, [], drop, length, IfSome, IfNone, IsSome, OnOk, slice_get, Option, Some, None, true};
ghost use Rattle.machine_model.specs.Machine.{Goes};
ghost use Rattle.mem_model.specs.World.{Rooms};
ghost use Rattle.suifvm_ir.specs.declared.insn.VmInsn.{VmInsn as Insn};
ghost use Rattle.suifvm_ir.specs.Insns as insns;
ghost use Rattle.suifvm_ir.specs.Programs as programs;
ghost use Rattle.suifvm_machine.specs.Config as config;
ghost use Rattle.suifvm_machine.specs.model.Acts as acts;
ghost use Rattle.suifvm_machine.specs.Tables.{block_insns};
ghost use Rattle.suifvm_meaning.specs.Behave.{registers_of};
ghost use Rattle.suifvm_meaning.specs.Effect as effect;
ghost use Rattle.suifvm_meaning.specs.Operations as operations;

use crate::machine::{Call, Machine, StepResult, Stop, block_at, register_in, set_register_in};
use bk_memory::memory_is_short;
use mem_model::value::Value;
use std::alloc::AllocError;
use suifvm_ir::insn::{VmBranchOp, VmInsn};
use suifvm_ir::types::{Alignment, MemoryType};
use suifvm_meaning::answer::Answer;
use suifvm_operations::objects::{copy, store};

/// Whether a branch is taken where its test gives this.
pub fn is_taken(op: VmBranchOp, test: bool) -> bool
    ensures { result ≡ effect.is_branch_taken op test }
{
    match op {
        VmBranchOp::IfTrue => test,
        VmBranchOp::IfFalse => !test,
    }
}

impl<'c, 'p> Machine<'c, 'p> {
    /// The instruction where the call stands; `None` behind the last one of its block.
    pub fn fetch(&self) -> Option<&'p VmInsn>
        ensures some { IfSome result
            (λ insn. slice_get (block_insns self.now.here.row.now) self.now.here.at ≡ Some insn.now) }
        ensures none { IfNone result (slice_get (block_insns self.now.here.row.now) self.now.here.at ≡ None) }
        ensures within { IsSome result → self.now.here.at < length self.now.here.row.now.insns.items }
    {
        self.here.row.insns.get(self.here.at).copied()
    }

    /// The value of a register of the call.
    pub fn get(&self, register: u32) -> Value
        requires { config.IsSound self.now }
        ensures { result ≡ registers_of (drop self.now.here.base self.now.stack.items) register }
    {
        register_in(self.stack.as_slice(), self.here.base, register)
    }

    /// The instruction has no meaning.
    pub(crate) fn fail(&self) -> StepResult
        requires { self.now.here.at < length self.now.here.row.now.insns.items }
        ensures { result ≡ StepResult.Over (Stop.Undefined (self.now.here.row.now.first + self.now.here.at)) }
    {
        StepResult::Over(Stop::Undefined(self.here.row.first + self.here.at as u64))
    }

    /// Writes a value into a register, if one is named, and goes on with the next instruction.
    #[tactic(auto, using(crate::proofs::Turns::wrote_none, crate::proofs::Turns::wrote_some))]
    pub fn write(&mut self, destination: Option<u32>, value: Value) -> Result<(), AllocError>
        requires sound { config.IsSound self.old }
        requires within { self.old.here.at < length self.old.here.row.now.insns.items }
        ensures { OnOk result (config.Wrote self.old self.new (insns.named_register destination) value) }
    {
        match destination {
            None => {
                self.here.at += 1;
                Ok(())
            }
            Some(register) => {
                let base = self.here.base;
                set_register_in(&mut self.stack, base, register, value)?;
                self.here.at += 1;
                Ok(())
            }
        }
    }

    /// Writes what an operation came to.
    #[tactic(auto, using(crate::proofs::Turns::give_value, crate::proofs::Turns::give_trap, crate::proofs::Turns::give_failure, crate::proofs::Turns::no_memory))]
    pub(crate) fn give(&mut self, destination: u32, answer: Answer) -> StepResult
        requires sound { config.IsSound self.old }
        requires within { self.old.here.at < length self.old.here.row.now.insns.items }
        ensures { (i : Insn) → insns.writes_of i ≡ destination ∷ [] →
            config.TurnIs self.old self.new result
            (λ rooms h. acts.act_there rooms self.old h i (effect.writes answer (config.world_in self.old h).outer)) }
    {
        match answer {
            Answer::Gives(value) => match self.write(Some(destination), value) {
                Ok(()) => StepResult::Goes,
                Err(error) => {
                    memory_is_short(error);
                    StepResult::NoMemory
                }
            },
            Answer::TrapsWith(code) => StepResult::Over(Stop::Traps(code)),
            Answer::Fails => self.fail(),
        }
    }

    /// Goes on with a block.
    #[tactic(auto, using(crate::proofs::Turns::to_block, crate::proofs::Turns::past_blocks))]
    pub(crate) fn go_to(&mut self, block: usize) -> StepResult
        requires { config.IsSound self.old }
        ensures { config.TurnIs self.old self.new result
            (λ rooms h. Goes (acts.at_block block (config.config_of self.old h))) }
    {
        let table = self.here.table;
        match block_at(table, block) {
            None => StepResult::Over(Stop::Undefined(table.end)),
            Some(row) => {
                self.here = Call {
                    function: self.here.function,
                    block,
                    at: 0,
                    own: self.here.own,
                    base: self.here.base,
                    table,
                    row,
                };
                StepResult::Goes
            }
        }
    }

    /// `str`.
    #[tactic(auto, using(crate::proofs::Turns::changed_turn, crate::proofs::Turns::unchanged_turn))]
    pub(crate) fn store_value(
        &mut self,
        ty: MemoryType,
        pointer: u32,
        plus: i64,
        value: u32,
    ) -> StepResult
        requires sound { config.IsSound self.old }
        requires within { self.old.here.at < length self.old.here.row.now.insns.items }
        ensures { (i : Insn) → insns.writes_of i ≡ [] →
            config.TurnIs self.old self.new result (λ rooms h. acts.act_there rooms self.old h i
            (effect.changes
            (operations.stored_memory self.old.memory ty
            (registers_of (drop self.old.here.base self.old.stack.items) pointer) plus
            (registers_of (drop self.old.here.base self.old.stack.items) value))
            (config.world_in self.old h).outer)) }
    {
        let to = self.get(pointer);
        let value = self.get(value);
        if store(&mut self.memory, ty, to, plus, value) {
            self.here.at += 1;
            StepResult::Goes
        } else {
            self.fail()
        }
    }

    /// `mcpy`.
    #[tactic(auto, using(crate::proofs::Turns::changed_turn, crate::proofs::Turns::unchanged_turn))]
    pub(crate) fn copy_cells(
        &mut self,
        to: u32,
        from: u32,
        size: u64,
        align: Alignment,
    ) -> StepResult
        requires sound { config.IsSound self.old }
        requires within { self.old.here.at < length self.old.here.row.now.insns.items }
        ensures { (i : Insn) → insns.writes_of i ≡ [] →
            config.TurnIs self.old self.new result (λ rooms h. acts.act_there rooms self.old h i
            (effect.changes
            (operations.copied_memory self.old.memory
            (registers_of (drop self.old.here.base self.old.stack.items) to)
            (registers_of (drop self.old.here.base self.old.stack.items) from) size
            (programs.alignment_bytes align)) (config.world_in self.old h).outer)) }
    {
        let to = self.get(to);
        let from = self.get(from);
        if copy(&mut self.memory, to, from, size, align) {
            self.here.at += 1;
            StepResult::Goes
        } else {
            self.fail()
        }
    }

    /// `btrue`, `bfalse`.
    #[tactic(auto, using(crate::proofs::Effects::branch_failure, crate::proofs::Effects::branch_taken, crate::proofs::Effects::branch_passed))]
    pub(crate) fn branch(&mut self, op: VmBranchOp, test: Option<bool>, block: u32) -> StepResult
        requires sound { config.IsSound self.old }
        requires within { self.old.here.at < length self.old.here.row.now.insns.items }
        ensures { (i : Insn) → insns.targets_of i ≡ block ∷ [] → insns.writes_of i ≡ [] →
            config.TurnIs self.old self.new result (λ rooms h. acts.act_there rooms self.old h i
            (effect.branches op test (config.world_in self.old h).outer)) }
    {
        match test {
            None => self.fail(),
            Some(test) => if is_taken(op, test) {
                self.go_to(block as usize)
            } else {
                self.here.at += 1;
                StepResult::Goes
            },
        }
    }
}
