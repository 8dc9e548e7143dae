//! What calls and returns do.

ghost use Rattle.std.specs.Prelude.{◌≡◌, ◌+◌, ◌^◌, ◌≤◌, ◌<◌, ◌++◌, ◌∷◌, [], List, Some, drop, map, length, OnOk};
ghost use Rattle.std.specs.List.{list_all};
ghost use Rattle.mem_model.specs.Memory as mem;
ghost use Rattle.mem_model.specs.World.{World};
ghost use Rattle.mem_model.specs.declared.value.Value.{Value as AnyValue};
ghost use Rattle.machine_model.specs.Code.{Calls, Returns};
ghost use Rattle.suifvm_ir.specs.declared.insn.VmInsn.{VmInsn as Insn};
ghost use Rattle.suifvm_ir.specs.Insns as insns;
ghost use Rattle.suifvm_machine.specs.Config as config;
ghost use Rattle.suifvm_machine.specs.model.Acts as acts;
ghost use Rattle.suifvm_meaning.specs.Behave.{registers_of, first_or_unset, value_status};
ghost use Rattle.suifvm_meaning.specs.Effect as effect;
ghost use Rattle.suifvm_meaning.specs.Operations as operations;
ghost use Rattle.suifvm_operations.specs.Tidy.{MemoryIsTidy};

use crate::beginning::begin_locals;
use crate::machine::{Call, Machine, StepResult, Stop, block_at, function_at, register_in};
use bk_memory::memory_is_short;
use mem_model::memory::Mem;
use mem_model::value::Value;
use pass_core::function::MemoryLocal;
use std::alloc::AllocError;
use suifvm_ir::insn::{TypedRegister, VmBuiltin, VmCallee, VmInsn};
use suifvm_operations::numbers::is_value_of;
use suifvm_operations::objects::end_objects;

/// Whether a value is set.
fn is_set(value: Value) -> bool
    ensures { result ≡ operations.is_set value }
{
    match value {
        Value::Word(_) => true,
        Value::Address(_) => true,
        Value::Unset => false,
    }
}

/// The register that an instruction writes, if it writes one.
fn destination_of(insn: &VmInsn) -> Option<u32>
    ensures { insns.writes_of insn.now ≡ insns.named_register result }
{
    match insn {
        VmInsn::LoadConstant { destination, .. } => Some(*destination),
        VmInsn::LoadAddress { destination, .. } => Some(*destination),
        VmInsn::Load { destination, .. } => Some(*destination),
        VmInsn::Unary { destination, .. } => Some(*destination),
        VmInsn::Binary { destination, .. } => Some(*destination),
        VmInsn::Shift { destination, .. } => Some(*destination),
        VmInsn::Convert { destination, .. } => Some(*destination),
        VmInsn::Compare { destination, .. } => Some(*destination),
        VmInsn::Call { destination, .. } => *destination,
        VmInsn::Store { .. } => None,
        VmInsn::Copy { .. } => None,
        VmInsn::Branch { .. } => None,
        VmInsn::Jump { .. } => None,
        VmInsn::Return { .. } => None,
        VmInsn::Mark => None,
        VmInsn::Nop => None,
    }
}

/// Puts the values of registers on the stack. The registers are those between a base and an end of it.
#[tactic(auto, using(crate::proofs::Pushes::push_next, crate::proofs::Pushes::push_end))]
fn push_registers(
    stack: &mut Vec<Value>,
    base: usize,
    end: usize,
    registers: &[u32],
) -> Result<(), AllocError>
    requires base { base ≤ end }
    requires end { end ≡ length stack.old.items }
    ensures { OnOk result
        (stack.new.items ≡ stack.old.items ++ map (registers_of (drop base stack.old.items)) registers.now) }
{
    for register in registers {
        let value = register_in(&stack[..end], base, *register);
        stack.push(value)?;
    }
    Ok(())
}

/// Puts the arguments of a call on the stack, behind the registers of the call that is to wait, begins the objects of
/// the new one, where so many were made before, and keeps the one that is to wait.
fn begin_call<'c, 'p>(
    stack: &mut Vec<Value>,
    memory: &mut Mem,
    callers: &mut Vec<Call<'c, 'p>>,
    here: Call<'c, 'p>,
    made: u64,
    objects: &[MemoryLocal],
    arguments: &[u32],
) -> Result<(), AllocError>
    requires base { here.base ≤ length stack.old.items }
    requires tidy { MemoryIsTidy memory.old }
    ensures few { OnOk result (made + length objects.now ≤ 2 ^ 63) }
    ensures tidy { OnOk result (MemoryIsTidy memory.new) }
    ensures objects { OnOk result (memory.new ≡ mem.begin_objects memory.old (map (λ o. o.size) objects.now)) }
    ensures arguments { OnOk result
        (stack.new.items ≡ stack.old.items ++ map (registers_of (drop here.entry.base stack.old.items)) arguments.now) }
    ensures callers { OnOk result (callers.new.items ≡ callers.old.items ++ here.entry ∷ []) }
{
    let end = stack.len();
    push_registers(stack, here.base, end, arguments)?;
    begin_locals(memory, made, objects)?;
    callers.push(here)?;
    Ok(())
}

/// The value of the first of the registers.
fn first(stack: &[Value], base: usize, registers: &[u32]) -> Value
    requires { base ≤ length stack.now }
    ensures { result ≡ effect.first_source (map (registers_of (drop base stack.now)) registers.now) }
{
    match registers.first() {
        None => Value::Unset,
        Some(register) => register_in(stack, base, *register),
    }
}

/// Whether each of the registers is set.
#[tactic(auto, using(crate::proofs::Pushes::set_next, crate::proofs::Pushes::set_end, crate::proofs::Pushes::unset_one))]
fn are_set(stack: &[Value], base: usize, registers: &[u32]) -> bool
    requires { base ≤ length stack.now }
    ensures { result ≡ list_all operations.is_set (map (registers_of (drop base stack.now)) registers.now) }
{
    for register in registers {
        if !is_set(register_in(stack, base, *register)) {
            return false;
        }
    }
    true
}

/// How a run ends whose first function returned a value, at the instruction with a number.
fn status_of(value: Value, number: u64) -> Stop
    ensures { (w : World) → config.ending_by result w ≡ acts.ends_with number w (value_status value) }
{
    match value {
        Value::Word(word) => Stop::Exits((word % 256) as u8),
        Value::Address(_) => Stop::Undefined(number),
        Value::Unset => Stop::Undefined(number),
    }
}

impl<'c, 'p> Machine<'c, 'p> {
    /// A call of a function of the program.
    #[tactic(auto, using(crate::proofs::Entries::entered_call, crate::proofs::Entries::no_function, crate::proofs::Entries::no_block, crate::proofs::Turns::no_memory))]
    fn enter(&mut self, function: u32, arguments: &[u32]) -> StepResult
        requires sound { config.IsSound self.old }
        requires within { self.old.here.at < length self.old.here.row.now.insns.items }
        ensures { (i : Insn) → config.TurnIs self.old self.new result (λ rooms h. acts.act_there rooms self.old h i
            (Calls function (map (registers_of (drop self.old.here.base self.old.stack.items)) arguments.now)
            (config.world_in self.old h).outer)) }
    {
        let program = self.program;
        let Some(table) = function_at(program, function) else {
            return StepResult::Over(Stop::Undefined(program.end));
        };
        let Some(row) = block_at(table, 0) else {
            return StepResult::Over(Stop::Undefined(table.end));
        };
        let base = self.stack.len();
        match begin_call(
            &mut self.stack,
            &mut self.memory,
            &mut self.callers,
            self.here,
            self.made,
            table.objects,
            arguments,
        ) {
            Ok(()) => {
                self.here = Call {
                    function,
                    block: 0,
                    at: 0,
                    own: self.made,
                    base,
                    table,
                    row,
                };
                self.made += table.objects.len() as u64;
                StepResult::Goes
            }
            Err(error) => {
                memory_is_short(error);
                StepResult::NoMemory
            }
        }
    }

    /// Ends the call, and gives a value to the one that waits for it.
    #[tactic(auto, using(crate::proofs::Returns::finished_run, crate::proofs::Returns::back_sound, crate::proofs::Returns::back_place, crate::proofs::Returns::returned_call, crate::proofs::Turns::no_memory))]
    fn leave(&mut self, value: Value) -> StepResult
        requires sound { config.IsSound self.old }
        requires within { self.old.here.at < length self.old.here.row.now.insns.items }
        ensures { (i : Insn) (vs : List AnyValue) → value ≡ first_or_unset vs →
            config.TurnIs self.old self.new result
            (λ rooms h. acts.act_there rooms self.old h i (Returns vs (config.world_in self.old h).outer)) }
    {
        let number = self.here.row.first + self.here.at as u64;
        let count = self.here.table.objects.len() as u64;
        end_objects(&mut self.memory, self.here.own, count);
        match self.callers.pop() {
            None => StepResult::Over(status_of(value, number)),
            Some(caller) => {
                self.stack.truncate(self.here.base);
                self.here = caller;
                let insn = self.here.row.insns[self.here.at];
                let destination = destination_of(insn);
                match self.write(destination, value) {
                    Ok(()) => StepResult::Goes,
                    Err(error) => {
                        memory_is_short(error);
                        StepResult::NoMemory
                    }
                }
            }
        }
    }

    /// `ret` with a value.
    fn give_typed(&mut self, typed: TypedRegister) -> StepResult
        requires sound { config.IsSound self.old }
        requires within { self.old.here.at < length self.old.here.row.now.insns.items }
        ensures { (i : Insn) → config.TurnIs self.old self.new result (λ rooms h. acts.act_there rooms self.old h i
            (effect.return_act (Some typed)
            (registers_of (drop self.old.here.base self.old.stack.items) typed.register ∷ [])
            (config.world_in self.old h).outer)) }
    {
        let value = self.get(typed.register);
        if is_value_of(typed.ty, value) {
            self.leave(value)
        } else {
            self.fail()
        }
    }

    /// `ret`.
    pub(crate) fn give_back(&mut self, value: Option<TypedRegister>) -> StepResult
        requires sound { config.IsSound self.old }
        requires within { self.old.here.at < length self.old.here.row.now.insns.items }
        ensures { (i : Insn) → config.TurnIs self.old self.new result (λ rooms h. acts.act_there rooms self.old h i
            (effect.return_act value
            (map (registers_of (drop self.old.here.base self.old.stack.items)) (insns.returned_register value))
            (config.world_in self.old h).outer)) }
    {
        match value {
            None => self.leave(Value::Unset),
            Some(typed) => self.give_typed(typed),
        }
    }

    /// `putchar`.
    #[tactic(auto, using(crate::proofs::Effects::put_word, crate::proofs::Effects::put_address, crate::proofs::Effects::put_unset, crate::proofs::Turns::no_memory))]
    fn put_char(&mut self, destination: Option<u32>, value: Value) -> StepResult
        requires sound { config.IsSound self.old }
        requires within { self.old.here.at < length self.old.here.row.now.insns.items }
        ensures { (i : Insn) → insns.writes_of i ≡ insns.named_register destination →
            config.TurnIs self.old self.new result (λ rooms h. acts.act_there rooms self.old h i
            (effect.puts_char value (config.world_in self.old h).outer)) }
    {
        match value {
            Value::Word(word) => match self.write(destination, Value::Word(word % 256)) {
                Ok(()) => StepResult::Puts((word % 256) as u8),
                Err(error) => {
                    memory_is_short(error);
                    StepResult::NoMemory
                }
            },
            Value::Address(_) => self.fail(),
            Value::Unset => self.fail(),
        }
    }

    /// `exit`.
    #[tactic(auto, using(crate::proofs::Effects::exit_word, crate::proofs::Effects::exit_address, crate::proofs::Effects::exit_unset))]
    fn exit(&self, value: Value) -> StepResult
        requires sound { config.IsSound self.now }
        requires within { self.now.here.at < length self.now.here.row.now.insns.items }
        ensures { (i : Insn) → config.TurnIs self.now self.now result (λ rooms h. acts.act_there rooms self.now h i
            (effect.exits_with value (config.world_in self.now h).outer)) }
    {
        match value {
            Value::Word(word) => StepResult::Over(Stop::Exits((word % 256) as u8)),
            Value::Address(_) => self.fail(),
            Value::Unset => self.fail(),
        }
    }

    /// A call of a built-in function, whose arguments are set.
    #[tactic(auto, using(crate::proofs::Effects::builtin_put, crate::proofs::Effects::builtin_get, crate::proofs::Effects::builtin_abort, crate::proofs::Effects::builtin_exit))]
    fn call_builtin(
        &mut self,
        destination: Option<u32>,
        builtin: VmBuiltin,
        arguments: &[u32],
    ) -> StepResult
        requires sound { config.IsSound self.old }
        requires within { self.old.here.at < length self.old.here.row.now.insns.items }
        ensures { (i : Insn) → insns.writes_of i ≡ insns.named_register destination →
            config.TurnIs self.old self.new result (λ rooms h. acts.act_there rooms self.old h i
            (effect.builtin_act builtin
            (map (registers_of (drop self.old.here.base self.old.stack.items)) arguments.now)
            (config.world_in self.old h).outer)) }
    {
        let value = first(self.stack.as_slice(), self.here.base, arguments);
        match builtin {
            VmBuiltin::PutChar => self.put_char(destination, value),
            VmBuiltin::GetChar => StepResult::Takes(destination),
            VmBuiltin::Abort => StepResult::Over(Stop::Traps(2)),
            VmBuiltin::Exit => self.exit(value),
        }
    }

    /// `cal`.
    #[tactic(auto, using(crate::proofs::Effects::call_unset, crate::proofs::Effects::call_function, crate::proofs::Effects::call_builtin))]
    pub(crate) fn call(
        &mut self,
        destination: Option<u32>,
        callee: VmCallee,
        arguments: &[u32],
    ) -> StepResult
        requires sound { config.IsSound self.old }
        requires within { self.old.here.at < length self.old.here.row.now.insns.items }
        ensures { (i : Insn) → insns.writes_of i ≡ insns.named_register destination →
            config.TurnIs self.old self.new result (λ rooms h. acts.act_there rooms self.old h i
            (effect.call_act callee (map (registers_of (drop self.old.here.base self.old.stack.items)) arguments.now)
            (config.world_in self.old h).outer)) }
    {
        if !are_set(self.stack.as_slice(), self.here.base, arguments) {
            return self.fail();
        }
        match callee {
            VmCallee::Function(function) => self.enter(function, arguments),
            VmCallee::Builtin(builtin) => self.call_builtin(destination, builtin, arguments),
        }
    }
}
