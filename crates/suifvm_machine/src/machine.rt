//! A run between two instructions.

ghost use Rattle.std.specs.Prelude.{◌≡◌, ◌<◌, ◌≤◌, take, drop, length, slice_get, Some, None, IfSome, IfNone, OnOk};
ghost use Rattle.suifvm_machine.specs.model.Windows.{Grows};
ghost use Rattle.suifvm_meaning.specs.Behave.{registers_of, set_register};

use crate::tables::{BlockTable, FunctionTable, ProgramTable};
use mem_model::memory::Mem;
use mem_model::value::Value;
use std::alloc::AllocError;
use suifvm_ir::insn::VmInsn;

/// A call that is under way. One that waits stands at its call instruction.
#[derive(Clone, Copy)]
pub struct Call<'c, 'p> {
    pub function: u32,
    pub block: usize,
    /// The place in the block.
    pub at: usize,
    /// The number of its first object.
    pub own: u64,
    /// Where its registers begin in the stack.
    pub base: usize,
    pub table: &'c FunctionTable<'p>,
    pub row: &'c BlockTable<'p>,
}

/// A run between two instructions.
#[derive(Drop)]
pub struct Machine<'c, 'p> {
    pub program: &'c ProgramTable<'p>,
    pub memory: Mem,
    /// How many objects were made.
    pub made: u64,
    /// The registers of all calls, those of the call that goes on last. It grows as registers are written.
    pub stack: Vec<Value>,
    /// The call that goes on.
    pub here: Call<'c, 'p>,
    /// The calls that wait.
    pub callers: Vec<Call<'c, 'p>>,
    /// The turns that are left.
    pub turns: u64,
}

/// How a run ends.
#[derive(Clone, Copy, Debug, PartialEq, Eq)]
pub enum Stop {
    Exits(u8),
    Traps(u64),
    /// The number of the instruction, over the whole program.
    Undefined(u64),
    /// A turn was to be taken, and none was left.
    Budget,
}

/// Why there is no machine at the start of a run.
#[derive(Clone, Copy, Debug, PartialEq, Eq)]
pub enum StartError {
    /// The first step ends the run.
    Over(Stop),
    /// Memory is short.
    NoMemory,
}

/// What a turn of the machine came to.
#[derive(Clone, Copy, Debug, PartialEq, Eq)]
pub enum StepResult {
    Goes,
    Over(Stop),
    /// A byte is to be put.
    Puts(u8),
    /// A byte is to be taken, and put into a register, if one is named.
    Takes(Option<u32>),
    /// Memory is short.
    NoMemory,
}

/// The value of a register, where the registers begin at a base of the stack.
pub(crate) fn register_in(stack: &[Value], base: usize, register: u32) -> Value
    requires { base ≤ length stack.now }
    ensures { result ≡ registers_of (drop base stack.now) register }
{
    match stack[base..].get(register as usize) {
        Some(value) => *value,
        None => Value::Unset,
    }
}

/// Makes a stack so long that it has a place. What is new is unset.
#[tactic(auto, using(crate::proofs::Windows::grows_none, crate::proofs::Windows::grows_by))]
fn grow(stack: &mut Vec<Value>, place: usize) -> Result<(), AllocError>
    ensures grows { OnOk result (Grows stack.old.items stack.new.items) }
    ensures there { OnOk result (place < length stack.new.items) }
{
    if place < stack.len() {
        return Ok(());
    }
    match place.checked_add(1) {
        None => Err(AllocError),
        Some(len) => stack.resize(len, Value::Unset),
    }
}

/// Writes a register, where the registers begin at a base of the stack. A stack that is too short grows.
#[tactic(auto, using(crate::proofs::Windows::set_window_at, crate::proofs::Windows::set_below, crate::proofs::Windows::set_within))]
pub(crate) fn set_register_in(
    stack: &mut Vec<Value>,
    base: usize,
    register: u32,
    value: Value,
) -> Result<(), AllocError>
    requires { base ≤ length stack.old.items }
    ensures window { OnOk result
        (registers_of (drop base stack.new.items)
        ≡ set_register register value (registers_of (drop base stack.old.items))) }
    ensures below { OnOk result (take base stack.new.items ≡ take base stack.old.items) }
    ensures within { OnOk result (base ≤ length stack.new.items) }
{
    let Some(place) = base.checked_add(register as usize) else {
        return Err(AllocError);
    };
    grow(stack, place)?;
    stack[place] = value;
    Ok(())
}

/// The function with a number.
pub(crate) fn function_at<'c, 'p>(
    program: &'c ProgramTable<'p>,
    number: u32,
) -> Option<&'c FunctionTable<'p>>
    ensures some { IfSome result (λ table. slice_get program.now.functions.items number ≡ Some table.now) }
    ensures none { IfNone result (slice_get program.now.functions.items number ≡ None) }
{
    program.functions.get(number as usize)
}

/// The block with a number.
pub fn block_at<'c, 'p>(table: &'c FunctionTable<'p>, number: usize) -> Option<&'c BlockTable<'p>>
    ensures some { IfSome result (λ row. slice_get table.now.blocks.items number ≡ Some row.now) }
    ensures none { IfNone result (slice_get table.now.blocks.items number ≡ None) }
{
    table.blocks.get(number)
}
