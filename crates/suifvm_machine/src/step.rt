//! One step of a run.

ghost use Rattle.std.specs.Prelude.{◌≡◌, ◌<◌, ◌≤◌, ◌^◌, drop, length, map, slice_get, Some, IfOk, true};
ghost use Rattle.suifvm_ir.specs.Insns as insns;
ghost use Rattle.suifvm_machine.specs.Config as config;
ghost use Rattle.suifvm_machine.specs.model.Acts as acts;
ghost use Rattle.suifvm_machine.specs.Tables.{block_insns};
ghost use Rattle.suifvm_meaning.specs.Behave.{registers_of};
ghost use Rattle.suifvm_meaning.specs.Effect as effect;
ghost use Rattle.suifvm_meaning.specs.Operations as operations;

use crate::machine::{Machine, StepResult, Stop};
use bk_memory::memory_is_short;
use mem_model::value::{Ptr, Value};
use std::alloc::AllocError;
use suifvm_ir::insn::{VmInsn, VmObject};
use suifvm_meaning::answer::Answer;
use suifvm_operations::numbers::{convert, shift, unary, when_value};
use suifvm_operations::objects::load;
use suifvm_operations::operators::{binary, compare, value_holds};

/// Whether an instruction takes a turn.
fn takes_turn(insn: &VmInsn) -> bool
    ensures { result ≡ effect.takes_turn insn.now }
{
    match insn {
        VmInsn::Call { .. } => true,
        VmInsn::Mark => true,
        _ => false,
    }
}

/// The address of an object, moved by so many bytes, where the number of the call's first object is given. It fails
/// where no object has so many bytes.
pub fn address_of(own: u64, place: VmObject, plus: u64) -> Result<Value, AllocError>
    requires { own ≤ 2 ^ 63 }
    ensures { IfOk result (λ value. value ≡ operations.place_address own place plus) }
{
    let Ok(offset) = i64::try_from(plus) else {
        return Err(AllocError);
    };
    match place {
        VmObject::Global(k) => Ok(Value::Address(Ptr {
            object: u64::from(k),
            offset,
        })),
        VmObject::Local(k) => Ok(Value::Address(Ptr {
            object: own + u64::from(k),
            offset,
        })),
    }
}

impl<'c, 'p> Machine<'c, 'p> {
    /// What an instruction does, after its turn.
    fn act(&mut self, insn: &VmInsn) -> StepResult
        requires sound { config.IsSound self.old }
        requires within { self.old.here.at < length self.old.here.row.now.insns.items }
        ensures { config.TurnIs self.old self.new result (λ rooms h. acts.act_there rooms self.old h insn.now
            (effect.does insn.now self.old.here.own
            (map (registers_of (drop self.old.here.base self.old.stack.items)) (insns.reads_of insn.now))
            (config.world_in self.old h).outer)) }
    {
        match insn {
            VmInsn::LoadConstant {
                ty,
                destination,
                word,
            } => { self.give(*destination, when_value(*ty, Value::Word(*word))) }
            VmInsn::LoadAddress {
                destination,
                place,
                plus,
            } => {
                match address_of(self.here.own, *place, *plus) {
                    Ok(value) => self.give(*destination, Answer::Gives(value)),
                    Err(error) => {
                        memory_is_short(error);
                        StepResult::NoMemory
                    }
                }
            }
            VmInsn::Load {
                ty,
                destination,
                pointer,
                plus,
            } => {
                let answer = load(&self.memory, *ty, self.get(*pointer), *plus);
                self.give(*destination, answer)
            }
            VmInsn::Store {
                ty,
                pointer,
                plus,
                value,
            } => { self.store_value(*ty, *pointer, *plus, *value) }
            VmInsn::Copy {
                to,
                from,
                size,
                align,
            } => self.copy_cells(*to, *from, *size, *align),
            VmInsn::Unary {
                op,
                ty,
                destination,
                source,
            } => { self.give(*destination, unary(*op, *ty, self.get(*source))) }
            VmInsn::Binary {
                op,
                ty,
                destination,
                left,
                right,
            } => {
                let answer = binary(&self.memory, *op, *ty, self.get(*left), self.get(*right));
                self.give(*destination, answer)
            }
            VmInsn::Shift {
                op,
                ty,
                destination,
                source,
                count,
            } => {
                self.give(
                    *destination,
                    shift(*op, *ty, self.get(*source), self.get(*count)),
                )
            }
            VmInsn::Convert {
                from,
                to,
                destination,
                source,
            } => { self.give(*destination, convert(*from, *to, self.get(*source))) }
            VmInsn::Compare {
                op,
                ty,
                destination,
                left,
                right,
            } => {
                let answer = compare(&self.memory, *op, *ty, self.get(*left), self.get(*right));
                self.give(*destination, answer)
            }
            VmInsn::Branch {
                op,
                ty,
                source,
                block,
            } => {
                let test = value_holds(&self.memory, *ty, self.get(*source));
                self.branch(*op, test, *block)
            }
            VmInsn::Jump { block } => self.go_to(*block as usize),
            VmInsn::Call {
                destination,
                callee,
                arguments,
            } => { self.call(*destination, *callee, arguments.as_slice()) }
            VmInsn::Return { value } => self.give_back(*value),
            VmInsn::Mark => {
                self.here.at += 1;
                StepResult::Goes
            }
            VmInsn::Nop => {
                self.here.at += 1;
                StepResult::Goes
            }
        }
    }

    /// What an instruction does that takes a turn.
    #[tactic(auto, using(crate::proofs::Effects::step_over))]
    fn act_in_turn(&mut self, insn: &VmInsn) -> StepResult
        requires sound { config.IsSound self.old }
        requires within { self.old.here.at < length self.old.here.row.now.insns.items }
        ensures { slice_get (block_insns self.old.here.row.now) self.old.here.at ≡ Some insn.now →
            effect.takes_turn insn.now ≡ true →
            config.TurnIs self.old self.new result (λ rooms h. config.step_there rooms self.old h) }
    {
        if self.turns == 0 {
            return StepResult::Over(Stop::Budget);
        }
        self.turns -= 1;
        self.act(insn)
    }

    /// One step.
    pub fn step(&mut self) -> StepResult
        requires { config.IsSound self.old }
        ensures { config.TurnIs self.old self.new result (λ rooms h. config.step_there rooms self.old h) }
    {
        match self.fetch() {
            None => {
                let block = self.here.block + 1;
                self.go_to(block)
            }
            Some(insn) => if takes_turn(insn) {
                self.act_in_turn(insn)
            } else {
                self.act(insn)
            },
        }
    }
}
