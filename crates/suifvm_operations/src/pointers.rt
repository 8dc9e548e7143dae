//! What operators do with pointers.

ghost use Rattle.std.specs.Prelude.{◌≡◌, ◌+ℤ◌, ◌-ℤ◌, ◌<◌, ◌^◌, ◌&&◌, pos, not, option_map, if◌then◌else◌, None};
ghost use Rattle.std.specs.Ordering.{int_eq};
ghost use Rattle.mem_model.specs.Pointers as pointers;
ghost use Rattle.bk_arithmetic.specs.declared.integer_type.IntegerType.TheVariants.{Long};
ghost use Rattle.bk_arithmetic.specs.Words as words;
ghost use Rattle.suifvm_operations.specs.Tidy.{MemoryIsTidy};
ghost use Rattle.suifvm_meaning.specs.Operations as operations;

use mem_model::memory::Mem;
use mem_model::value::{Ptr, Value};
use suifvm_ir::insn::{CompareOp, VmBinaryOp};
use suifvm_meaning::answer::Answer;

/// The word of an `s64`, as a number.
fn number_of(word: u64) -> i64
    ensures { result ≡ words.value Long word }
{
    word.cast_signed()
}

/// The word of the distance between two offsets.
#[tactic(auto, using(crate::proofs::Offsets::distance_word))]
fn distance(to: i64, from: i64) -> u64
    ensures { result ≡ words.word Long (to -ℤ from) }
{
    to.cast_unsigned().wrapping_sub(from.cast_unsigned())
}

/// An offset moved by so many bytes, where it stays within 0 to a size.
fn move_offset(offset: i64, by: i64, size: u64) -> Option<i64>
    requires { size < 2 ^ 63 }
    ensures { result ≡ pointers.option_if (pointers.is_offset (offset +ℤ by) size) (offset +ℤ by) }
{
    match offset.checked_add(by) {
        None => None,
        Some(sum) => if sum >= 0 && sum.unsigned_abs() <= size {
            Some(sum)
        } else {
            None
        },
    }
}

/// Whether the object of a pointer lives.
fn is_live(memory: &Mem, p: Ptr) -> bool
    ensures { result ≡ pointers.is_live memory.now p }
{
    memory.size_of(p.object).is_some()
}

/// Whether two pointers point into one live object.
fn share_object(memory: &Mem, p: Ptr, q: Ptr) -> bool
    ensures { result ≡ pointers.share_object memory.now p q }
{
    is_live(memory, p) && p.object == q.object
}

/// An address moved by so many bytes.
fn address_plus(memory: &Mem, p: Ptr, by: i64) -> Option<Ptr>
    requires { MemoryIsTidy memory.now }
    ensures { result
        ≡ pointers.option_if
        (pointers.is_live memory.now p && pointers.is_offset (p.offset +ℤ by) (pointers.size_at memory.now p))
        (pointers.ptr_plus p by) }
{
    match memory.size_of(p.object) {
        None => None,
        Some(size) => match move_offset(p.offset, by, size) {
            None => None,
            Some(offset) => Some(Ptr {
                object: p.object,
                offset,
            }),
        },
    }
}

/// A pointer moved by so many bytes (C99 6.5.6).
pub(crate) fn pointer_plus(memory: &Mem, value: Value, by: i64) -> Option<Value>
    requires { MemoryIsTidy memory.now }
    ensures { result ≡ pointers.pointer_plus memory.now value by }
{
    match value {
        Value::Address(p) => match address_plus(memory, p, by) {
            None => None,
            Some(q) => Some(Value::Address(q)),
        },
        Value::Word(_) => None,
        Value::Unset => None,
    }
}

/// The distance of two pointers (C99 6.5.6), as an `s64`.
fn pointer_minus(memory: &Mem, a: Value, b: Value) -> Answer
    ensures { result ≡ operations.distance_answer (pointers.pointer_minus memory.now a b) }
{
    match a {
        Value::Address(p) => match b {
            Value::Address(q) => if share_object(memory, p, q) {
                Answer::Gives(Value::Word(distance(p.offset, q.offset)))
            } else {
                Answer::Fails
            },
            Value::Word(_) => Answer::Fails,
            Value::Unset => Answer::Fails,
        },
        Value::Word(_) => Answer::Fails,
        Value::Unset => Answer::Fails,
    }
}

/// The value that there may be.
fn answer_of(value: Option<Value>) -> Answer
    ensures { result ≡ operations.value_answer value }
{
    match value {
        None => Answer::Fails,
        Some(value) => Answer::Gives(value),
    }
}

/// A sum of a pointer and bytes.
fn sum(memory: &Mem, a: Value, b: Value) -> Answer
    requires { MemoryIsTidy memory.now }
    ensures { result ≡ operations.pointer_answer memory.now VmBinaryOp.Add a b }
{
    match b {
        Value::Word(word) => answer_of(pointer_plus(memory, a, number_of(word))),
        Value::Address(_) => Answer::Fails,
        Value::Unset => Answer::Fails,
    }
}

/// An operation on two registers of pointers.
pub(crate) fn pointer_answer(memory: &Mem, op: VmBinaryOp, a: Value, b: Value) -> Answer
    requires { MemoryIsTidy memory.now }
    ensures { result ≡ operations.pointer_answer memory.now op a b }
{
    match op {
        VmBinaryOp::Add => sum(memory, a, b),
        VmBinaryOp::Subtract => pointer_minus(memory, a, b),
        VmBinaryOp::Multiply => Answer::Fails,
        VmBinaryOp::Divide => Answer::Fails,
        VmBinaryOp::Remainder => Answer::Fails,
        VmBinaryOp::And => Answer::Fails,
        VmBinaryOp::Or => Answer::Fails,
        VmBinaryOp::ExclusiveOr => Answer::Fails,
    }
}

/// `<` (C99 6.5.8).
fn pointer_lt(memory: &Mem, a: Value, b: Value) -> Option<bool>
    ensures { result ≡ pointers.pointer_lt memory.now a b }
{
    match a {
        Value::Address(p) => match b {
            Value::Address(q) => if share_object(memory, p, q) {
                Some(p.offset < q.offset)
            } else {
                None
            },
            Value::Word(_) => None,
            Value::Unset => None,
        },
        Value::Word(_) => None,
        Value::Unset => None,
    }
}

/// `<=` (C99 6.5.8).
fn pointer_le(memory: &Mem, a: Value, b: Value) -> Option<bool>
    ensures { result ≡ pointers.pointer_le memory.now a b }
{
    match a {
        Value::Address(p) => match b {
            Value::Address(q) => if share_object(memory, p, q) {
                Some(p.offset <= q.offset)
            } else {
                None
            },
            Value::Word(_) => None,
            Value::Unset => None,
        },
        Value::Word(_) => None,
        Value::Unset => None,
    }
}

/// Whether a pointer is null (C99 6.3.2.3).
pub(crate) fn is_null(memory: &Mem, value: Value) -> Option<bool>
    ensures { result ≡ pointers.is_null memory.now value }
{
    match value {
        Value::Word(0) => Some(true),
        Value::Word(_) => None,
        Value::Address(p) => if is_live(memory, p) {
            Some(false)
        } else {
            None
        },
        Value::Unset => None,
    }
}

/// Whether an offset is an object's size.
fn is_end(offset: i64, size: u64) -> bool
    ensures { result ≡ int_eq offset (pos size) }
{
    offset >= 0 && offset.unsigned_abs() == size
}

/// `==` of two addresses (C99 6.5.9).
fn addresses_eq(memory: &Mem, p: Ptr, q: Ptr) -> Option<bool>
    ensures { result
        ≡ (if pointers.is_live memory.now p && pointers.is_live memory.now q then pointers.addresses_eq memory.now p q
        else None) }
{
    let Some(size) = memory.size_of(p.object) else {
        return None;
    };
    let Some(other) = memory.size_of(q.object) else {
        return None;
    };
    if p.object == q.object {
        return Some(p.offset == q.offset);
    }
    if is_end(p.offset, size) || is_end(q.offset, other) {
        return None;
    }
    Some(false)
}

/// `==` (C99 6.5.9).
fn pointer_eq(memory: &Mem, a: Value, b: Value) -> Option<bool>
    ensures { result ≡ pointers.pointer_eq memory.now a b }
{
    match a {
        Value::Address(p) => match b {
            Value::Address(q) => addresses_eq(memory, p, q),
            Value::Word(0) => is_null(memory, a),
            Value::Word(_) => None,
            Value::Unset => None,
        },
        Value::Word(0) => is_null(memory, b),
        Value::Word(_) => None,
        Value::Unset => None,
    }
}

/// Turns an answer round.
pub(crate) fn negate_test(test: Option<bool>) -> Option<bool>
    ensures { result ≡ option_map not test }
{
    match test {
        None => None,
        Some(test) => Some(!test),
    }
}

/// A comparison of two registers of pointers.
pub(crate) fn compare_pointer(memory: &Mem, op: CompareOp, a: Value, b: Value) -> Option<bool>
    ensures { result ≡ operations.compare_pointer memory.now op a b }
{
    match op {
        CompareOp::Equal => pointer_eq(memory, a, b),
        CompareOp::NotEqual => negate_test(pointer_eq(memory, a, b)),
        CompareOp::Less => pointer_lt(memory, a, b),
        CompareOp::LessOrEqual => pointer_le(memory, a, b),
    }
}
