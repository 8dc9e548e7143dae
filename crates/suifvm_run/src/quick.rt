//! Instructions that come to a value, a jump or nothing. Most of a run is made of them, and they are done here at once;
//! whatever else an instruction comes to is left to a whole step. Those on words alone are inlined into the run's loop,
//! those that touch pointers or memory are called from it.

ghost use Rattle.std.specs.Prelude.{◌≡◌, ◌<◌, ◌≤◌, ◌∷◌, [], take, drop, length, slice_get, Some, IfSome};
ghost use Rattle.std.specs.Bool.{OnTrue, OnFalse};
ghost use Rattle.suifvm_run.specs.model.Quick.{StepsOrKeeps};
ghost use Rattle.machine_model.specs.Machine.{Goes};
ghost use Rattle.suifvm_ir.specs.declared.insn.VmInsn.{VmInsn as Insn};
ghost use Rattle.suifvm_ir.specs.Insns as insns;
ghost use Rattle.suifvm_machine.specs.Config as config;
ghost use Rattle.suifvm_machine.specs.model.Acts as acts;
ghost use Rattle.suifvm_machine.specs.Tables.{block_insns};
ghost use Rattle.suifvm_meaning.specs.Behave.{registers_of, set_register};
ghost use Rattle.suifvm_meaning.specs.Effect as effect;
ghost use Rattle.suifvm_meaning.specs.Operations as operations;

use mem_model::value::Value;
use suifvm_ir::insn::{CompareOp, ShiftOp, VmBinaryOp, VmBranchOp, VmInsn, VmObject, VmUnaryOp};
use suifvm_ir::types::{MemoryType, VmType};
use suifvm_machine::machine::{Call, Machine, StepResult, block_at};
use suifvm_machine::step::address_of;
use suifvm_machine::steps::is_taken;
use suifvm_meaning::answer::Answer;
use suifvm_operations::given::{binary_word, compare_word, given_word, word_holds};
use suifvm_operations::numbers::{convert, shift, unary, when_value};
use suifvm_operations::objects::{load, store};
use suifvm_operations::operators::binary;

/// The word of a register, if it holds one, where the registers begin at a base of the stack.
#[inline(always)]
fn word_in(stack: &[Value], base: usize, register: u32) -> Option<u64>
    requires { base ≤ length stack.now }
    ensures { IfSome result (λ word. registers_of (drop base stack.now) register ≡ Value.Word word) }
{
    match stack[base..].get(register as usize) {
        Some(value) => match value {
            Value::Word(word) => Some(*word),
            Value::Address(_) => None,
            Value::Unset => None,
        },
        None => None,
    }
}

/// Writes a value into a register that is in a stack, where the registers begin at a base of it.
#[inline(always)]
#[tactic(auto, using(suifvm_machine::proofs::Windows::set_window_at, suifvm_machine::proofs::Windows::set_below, suifvm_machine::proofs::Windows::set_within))]
fn set_in(stack: &mut Vec<Value>, base: usize, register: u32, value: Value) -> bool
    requires { base ≤ length stack.old.items }
    ensures window { OnTrue result
        (registers_of (drop base stack.new.items)
        ≡ set_register register value (registers_of (drop base stack.old.items))) }
    ensures below { OnTrue result (take base stack.new.items ≡ take base stack.old.items) }
    ensures within { OnTrue result (base ≤ length stack.new.items) }
    ensures kept { OnFalse result (stack.new ≡ stack.old) }
{
    let Some(place) = base.checked_add(register as usize) else {
        return false;
    };
    if place >= stack.len() {
        return false;
    }
    stack[place] = value;
    true
}

/// The word of a register of the call, if it holds one.
#[inline(always)]
fn word(machine: &Machine<'_, '_>, register: u32) -> Option<u64>
    requires { config.IsSound machine.now }
    ensures { IfSome result (λ word.
        Value.Word word ≡ registers_of (drop machine.now.here.base machine.now.stack.items) register) }
{
    word_in(machine.stack.as_slice(), machine.here.base, register)
}

/// Writes a value into a register that is there, and goes on with the next instruction.
#[inline(always)]
#[tactic(auto, using(suifvm_machine::proofs::Turns::wrote_some))]
fn put(machine: &mut Machine<'_, '_>, destination: u32, value: Value) -> bool
    requires sound { config.IsSound machine.old }
    requires within { machine.old.here.at < length machine.old.here.row.now.insns.items }
    ensures { StepsOrKeeps machine.old machine.new result
        (config.Wrote machine.old machine.new (destination ∷ []) value) }
{
    let base = machine.here.base;
    if !set_in(&mut machine.stack, base, destination, value) {
        return false;
    }
    machine.here.at += 1;
    true
}

/// Writes a word into a register that is there, and goes on with the next instruction.
#[inline(always)]
fn put_word(machine: &mut Machine<'_, '_>, destination: u32, word: u64) -> bool
    requires sound { config.IsSound machine.old }
    requires within { machine.old.here.at < length machine.old.here.row.now.insns.items }
    ensures { StepsOrKeeps machine.old machine.new result
        (config.Wrote machine.old machine.new (destination ∷ []) (Value.Word word)) }
{
    put(machine, destination, Value::Word(word))
}

/// An operation on two numbers.
#[inline(always)]
fn quick_binary(
    machine: &mut Machine<'_, '_>,
    op: VmBinaryOp,
    ty: VmType,
    destination: u32,
    left: u32,
    right: u32,
) -> bool
    requires sound { config.IsSound machine.old }
    requires within { machine.old.here.at < length machine.old.here.row.now.insns.items }
    ensures { StepsOrKeeps machine.old machine.new result ((i : Insn) → insns.writes_of i ≡ destination ∷ [] →
        config.TurnIs machine.old machine.new StepResult.Goes (λ rooms h. acts.act_there rooms machine.old h i
        (effect.writes (operations.binary_answer machine.old.memory op ty
        (registers_of (drop machine.old.here.base machine.old.stack.items) left)
        (registers_of (drop machine.old.here.base machine.old.stack.items) right))
        (config.world_in machine.old h).outer))) }
{
    let Some(a) = word(machine, left) else {
        return false;
    };
    let Some(b) = word(machine, right) else {
        return false;
    };
    let Some(word) = binary_word(op, ty, a, b) else {
        return false;
    };
    put_word(machine, destination, word)
}

/// A comparison of two numbers.
#[inline(always)]
fn quick_compare(
    machine: &mut Machine<'_, '_>,
    op: CompareOp,
    ty: VmType,
    destination: u32,
    left: u32,
    right: u32,
) -> bool
    requires sound { config.IsSound machine.old }
    requires within { machine.old.here.at < length machine.old.here.row.now.insns.items }
    ensures { StepsOrKeeps machine.old machine.new result ((i : Insn) → insns.writes_of i ≡ destination ∷ [] →
        config.TurnIs machine.old machine.new StepResult.Goes (λ rooms h. acts.act_there rooms machine.old h i
        (effect.writes (operations.compare_answer machine.old.memory op ty
        (registers_of (drop machine.old.here.base machine.old.stack.items) left)
        (registers_of (drop machine.old.here.base machine.old.stack.items) right))
        (config.world_in machine.old h).outer))) }
{
    let Some(a) = word(machine, left) else {
        return false;
    };
    let Some(b) = word(machine, right) else {
        return false;
    };
    let Some(word) = compare_word(op, ty, a, b) else {
        return false;
    };
    put_word(machine, destination, word)
}

/// A constant.
#[inline(always)]
fn quick_constant(machine: &mut Machine<'_, '_>, ty: VmType, destination: u32, word: u64) -> bool
    requires sound { config.IsSound machine.old }
    requires within { machine.old.here.at < length machine.old.here.row.now.insns.items }
    ensures { StepsOrKeeps machine.old machine.new result ((i : Insn) → insns.writes_of i ≡ destination ∷ [] →
        config.TurnIs machine.old machine.new StepResult.Goes (λ rooms h. acts.act_there rooms machine.old h i
        (effect.writes (operations.when_value ty (Value.Word word)) (config.world_in machine.old h).outer))) }
{
    let Some(word) = given_word(when_value(ty, Value::Word(word))) else {
        return false;
    };
    put_word(machine, destination, word)
}

/// An operation on one number, or a copy of a word.
#[inline(always)]
fn quick_unary(
    machine: &mut Machine<'_, '_>,
    op: VmUnaryOp,
    ty: VmType,
    destination: u32,
    source: u32,
) -> bool
    requires sound { config.IsSound machine.old }
    requires within { machine.old.here.at < length machine.old.here.row.now.insns.items }
    ensures { StepsOrKeeps machine.old machine.new result ((i : Insn) → insns.writes_of i ≡ destination ∷ [] →
        config.TurnIs machine.old machine.new StepResult.Goes (λ rooms h. acts.act_there rooms machine.old h i
        (effect.writes (operations.unary_answer op ty
        (registers_of (drop machine.old.here.base machine.old.stack.items) source))
        (config.world_in machine.old h).outer))) }
{
    let Some(a) = word(machine, source) else {
        return false;
    };
    let Some(word) = given_word(unary(op, ty, Value::Word(a))) else {
        return false;
    };
    put_word(machine, destination, word)
}

/// A conversion of a number.
#[inline(always)]
fn quick_convert(
    machine: &mut Machine<'_, '_>,
    from: MemoryType,
    to: VmType,
    destination: u32,
    source: u32,
) -> bool
    requires sound { config.IsSound machine.old }
    requires within { machine.old.here.at < length machine.old.here.row.now.insns.items }
    ensures { StepsOrKeeps machine.old machine.new result ((i : Insn) → insns.writes_of i ≡ destination ∷ [] →
        config.TurnIs machine.old machine.new StepResult.Goes (λ rooms h. acts.act_there rooms machine.old h i
        (effect.writes (operations.convert_answer from to
        (registers_of (drop machine.old.here.base machine.old.stack.items) source))
        (config.world_in machine.old h).outer))) }
{
    let Some(a) = word(machine, source) else {
        return false;
    };
    let Some(word) = given_word(convert(from, to, Value::Word(a))) else {
        return false;
    };
    put_word(machine, destination, word)
}

/// A shift of a number.
#[inline(always)]
fn quick_shift(
    machine: &mut Machine<'_, '_>,
    op: ShiftOp,
    ty: VmType,
    destination: u32,
    source: u32,
    count: u32,
) -> bool
    requires sound { config.IsSound machine.old }
    requires within { machine.old.here.at < length machine.old.here.row.now.insns.items }
    ensures { StepsOrKeeps machine.old machine.new result ((i : Insn) → insns.writes_of i ≡ destination ∷ [] →
        config.TurnIs machine.old machine.new StepResult.Goes (λ rooms h. acts.act_there rooms machine.old h i
        (effect.writes (operations.shift_answer op ty
        (registers_of (drop machine.old.here.base machine.old.stack.items) source)
        (registers_of (drop machine.old.here.base machine.old.stack.items) count))
        (config.world_in machine.old h).outer))) }
{
    let Some(a) = word(machine, source) else {
        return false;
    };
    let Some(b) = word(machine, count) else {
        return false;
    };
    let Some(word) = given_word(shift(op, ty, Value::Word(a), Value::Word(b))) else {
        return false;
    };
    put_word(machine, destination, word)
}

/// Writes what an operation gives, if it gives a value.
#[inline(always)]
fn put_answer(machine: &mut Machine<'_, '_>, destination: u32, answer: Answer) -> bool
    requires sound { config.IsSound machine.old }
    requires within { machine.old.here.at < length machine.old.here.row.now.insns.items }
    ensures { StepsOrKeeps machine.old machine.new result ((i : Insn) → insns.writes_of i ≡ destination ∷ [] →
        config.TurnIs machine.old machine.new StepResult.Goes (λ rooms h. acts.act_there rooms machine.old h i
        (effect.writes answer (config.world_in machine.old h).outer))) }
{
    match answer {
        Answer::Gives(value) => put(machine, destination, value),
        Answer::TrapsWith(_) => false,
        Answer::Fails => false,
    }
}

/// A load.
#[inline(never)]
fn quick_load(
    machine: &mut Machine<'_, '_>,
    ty: MemoryType,
    destination: u32,
    pointer: u32,
    plus: i64,
) -> bool
    requires sound { config.IsSound machine.old }
    requires within { machine.old.here.at < length machine.old.here.row.now.insns.items }
    ensures { StepsOrKeeps machine.old machine.new result ((i : Insn) → insns.writes_of i ≡ destination ∷ [] →
        config.TurnIs machine.old machine.new StepResult.Goes (λ rooms h. acts.act_there rooms machine.old h i
        (effect.writes (operations.loaded_answer machine.old.memory ty
        (registers_of (drop machine.old.here.base machine.old.stack.items) pointer) plus)
        (config.world_in machine.old h).outer))) }
{
    let answer = load(&machine.memory, ty, machine.get(pointer), plus);
    put_answer(machine, destination, answer)
}

/// The address of an object.
#[inline(never)]
fn quick_address(
    machine: &mut Machine<'_, '_>,
    destination: u32,
    place: VmObject,
    plus: u64,
) -> bool
    requires sound { config.IsSound machine.old }
    requires within { machine.old.here.at < length machine.old.here.row.now.insns.items }
    ensures { StepsOrKeeps machine.old machine.new result ((i : Insn) → insns.writes_of i ≡ destination ∷ [] →
        config.TurnIs machine.old machine.new StepResult.Goes (λ rooms h. acts.act_there rooms machine.old h i
        (effect.writes (Answer.Gives (operations.place_address machine.old.here.own place plus))
        (config.world_in machine.old h).outer))) }
{
    match address_of(machine.here.own, place, plus) {
        Ok(value) => put(machine, destination, value),
        Err(_) => false,
    }
}

/// A sum or a difference of pointers, or another operation on any two values.
#[inline(never)]
fn quick_pointer(
    machine: &mut Machine<'_, '_>,
    op: VmBinaryOp,
    ty: VmType,
    destination: u32,
    left: u32,
    right: u32,
) -> bool
    requires sound { config.IsSound machine.old }
    requires within { machine.old.here.at < length machine.old.here.row.now.insns.items }
    ensures { StepsOrKeeps machine.old machine.new result ((i : Insn) → insns.writes_of i ≡ destination ∷ [] →
        config.TurnIs machine.old machine.new StepResult.Goes (λ rooms h. acts.act_there rooms machine.old h i
        (effect.writes (operations.binary_answer machine.old.memory op ty
        (registers_of (drop machine.old.here.base machine.old.stack.items) left)
        (registers_of (drop machine.old.here.base machine.old.stack.items) right))
        (config.world_in machine.old h).outer))) }
{
    let answer = binary(
        &machine.memory,
        op,
        ty,
        machine.get(left),
        machine.get(right),
    );
    put_answer(machine, destination, answer)
}

/// An operation on two registers.
#[inline(always)]
fn quick_two(
    machine: &mut Machine<'_, '_>,
    op: VmBinaryOp,
    ty: VmType,
    destination: u32,
    left: u32,
    right: u32,
) -> bool
    requires sound { config.IsSound machine.old }
    requires within { machine.old.here.at < length machine.old.here.row.now.insns.items }
    ensures { StepsOrKeeps machine.old machine.new result ((i : Insn) → insns.writes_of i ≡ destination ∷ [] →
        config.TurnIs machine.old machine.new StepResult.Goes (λ rooms h. acts.act_there rooms machine.old h i
        (effect.writes (operations.binary_answer machine.old.memory op ty
        (registers_of (drop machine.old.here.base machine.old.stack.items) left)
        (registers_of (drop machine.old.here.base machine.old.stack.items) right))
        (config.world_in machine.old h).outer))) }
{
    match ty {
        VmType::P64 => quick_pointer(machine, op, ty, destination, left, right),
        _ => quick_binary(machine, op, ty, destination, left, right),
    }
}

/// A store.
#[inline(never)]
#[tactic(auto, using(suifvm_machine::proofs::Turns::changed_turn))]
fn quick_store(
    machine: &mut Machine<'_, '_>,
    ty: MemoryType,
    pointer: u32,
    plus: i64,
    value: u32,
) -> bool
    requires sound { config.IsSound machine.old }
    requires within { machine.old.here.at < length machine.old.here.row.now.insns.items }
    ensures { StepsOrKeeps machine.old machine.new result ((i : Insn) → insns.writes_of i ≡ [] →
        config.TurnIs machine.old machine.new StepResult.Goes (λ rooms h. acts.act_there rooms machine.old h i
        (effect.changes (operations.stored_memory machine.old.memory ty
        (registers_of (drop machine.old.here.base machine.old.stack.items) pointer) plus
        (registers_of (drop machine.old.here.base machine.old.stack.items) value))
        (config.world_in machine.old h).outer))) }
{
    let to = machine.get(pointer);
    let value = machine.get(value);
    if store(&mut machine.memory, ty, to, plus, value) {
        machine.here.at += 1;
        true
    } else {
        false
    }
}

/// Goes on with a block that is there.
#[inline(always)]
fn quick_jump(machine: &mut Machine<'_, '_>, block: usize) -> bool
    requires { config.IsSound machine.old }
    ensures { StepsOrKeeps machine.old machine.new result (config.TurnIs machine.old machine.new StepResult.Goes
        (λ rooms h. Goes (acts.at_block block (config.config_of machine.old h)))) }
{
    let table = machine.here.table;
    match block_at(table, block) {
        None => false,
        Some(row) => {
            machine.here = Call {
                function: machine.here.function,
                block,
                at: 0,
                own: machine.here.own,
                base: machine.here.base,
                table,
                row,
            };
            true
        }
    }
}

/// Goes on with a block where a test says so, and else with the next instruction.
#[inline(always)]
fn quick_test(machine: &mut Machine<'_, '_>, op: VmBranchOp, test: bool, block: u32) -> bool
    requires sound { config.IsSound machine.old }
    requires within { machine.old.here.at < length machine.old.here.row.now.insns.items }
    ensures { StepsOrKeeps machine.old machine.new result
        ((i : Insn) → insns.targets_of i ≡ block ∷ [] → insns.writes_of i ≡ [] →
        config.TurnIs machine.old machine.new StepResult.Goes (λ rooms h. acts.act_there rooms machine.old h i
        (effect.branches op (Some test) (config.world_in machine.old h).outer))) }
{
    if is_taken(op, test) {
        quick_jump(machine, block as usize)
    } else {
        machine.here.at += 1;
        true
    }
}

/// A branch on a number.
#[inline(always)]
fn quick_branch(
    machine: &mut Machine<'_, '_>,
    op: VmBranchOp,
    ty: VmType,
    source: u32,
    block: u32,
) -> bool
    requires sound { config.IsSound machine.old }
    requires within { machine.old.here.at < length machine.old.here.row.now.insns.items }
    ensures { StepsOrKeeps machine.old machine.new result
        ((i : Insn) → insns.targets_of i ≡ block ∷ [] → insns.writes_of i ≡ [] →
        config.TurnIs machine.old machine.new StepResult.Goes (λ rooms h. acts.act_there rooms machine.old h i
        (effect.branches op (operations.value_holds machine.old.memory ty
        (registers_of (drop machine.old.here.base machine.old.stack.items) source))
        (config.world_in machine.old h).outer))) }
{
    let Some(word) = word(machine, source) else {
        return false;
    };
    let Some(test) = word_holds(ty, word) else {
        return false;
    };
    quick_test(machine, op, test, block)
}

/// A mark, which takes a turn.
#[inline(always)]
fn quick_mark(machine: &mut Machine<'_, '_>) -> bool
    requires sound { config.IsSound machine.old }
    requires within { machine.old.here.at < length machine.old.here.row.now.insns.items }
    ensures { StepsOrKeeps machine.old machine.new result (
        slice_get (block_insns machine.old.here.row.now) machine.old.here.at ≡ Some Insn.Mark →
        config.TurnIs machine.old machine.new StepResult.Goes (λ rooms h. config.step_there rooms machine.old h)) }
{
    if machine.turns == 0 {
        return false;
    }
    machine.turns -= 1;
    machine.here.at += 1;
    true
}

/// An instruction with its turn, where it is one of these.
#[inline(always)]
fn quick_insn(machine: &mut Machine<'_, '_>, insn: &VmInsn) -> bool
    requires sound { config.IsSound machine.old }
    requires within { machine.old.here.at < length machine.old.here.row.now.insns.items }
    ensures { StepsOrKeeps machine.old machine.new result (
        slice_get (block_insns machine.old.here.row.now) machine.old.here.at ≡ Some insn.now →
        config.TurnIs machine.old machine.new StepResult.Goes (λ rooms h. config.step_there rooms machine.old h)) }
{
    match insn {
        VmInsn::Binary {
            op,
            ty,
            destination,
            left,
            right,
        } => quick_two(machine, *op, *ty, *destination, *left, *right),
        VmInsn::Compare {
            op,
            ty,
            destination,
            left,
            right,
        } => quick_compare(machine, *op, *ty, *destination, *left, *right),
        VmInsn::Branch {
            op,
            ty,
            source,
            block,
        } => quick_branch(machine, *op, *ty, *source, *block),
        VmInsn::Mark => quick_mark(machine),
        VmInsn::Jump { block } => quick_jump(machine, *block as usize),
        VmInsn::LoadConstant {
            ty,
            destination,
            word,
        } => quick_constant(machine, *ty, *destination, *word),
        VmInsn::Unary {
            op,
            ty,
            destination,
            source,
        } => quick_unary(machine, *op, *ty, *destination, *source),
        VmInsn::Convert {
            from,
            to,
            destination,
            source,
        } => quick_convert(machine, *from, *to, *destination, *source),
        VmInsn::Shift {
            op,
            ty,
            destination,
            source,
            count,
        } => quick_shift(machine, *op, *ty, *destination, *source, *count),
        VmInsn::Load {
            ty,
            destination,
            pointer,
            plus,
        } => quick_load(machine, *ty, *destination, *pointer, *plus),
        VmInsn::Store {
            ty,
            pointer,
            plus,
            value,
        } => quick_store(machine, *ty, *pointer, *plus, *value),
        VmInsn::LoadAddress {
            destination,
            place,
            plus,
        } => quick_address(machine, *destination, *place, *plus),
        _ => false,
    }
}
/// One step, where it is one of these.
#[inline(always)]
pub(crate) fn quick_step(machine: &mut Machine<'_, '_>) -> bool
    requires { config.IsSound machine.old }
    ensures { StepsOrKeeps machine.old machine.new result
        (config.TurnIs machine.old machine.new StepResult.Goes (λ rooms h. config.step_there rooms machine.old h)) }
{
    match machine.fetch() {
        None => {
            let block = machine.here.block + 1;
            quick_jump(machine, block)
        }
        Some(insn) => quick_insn(machine, insn),
    }
}
