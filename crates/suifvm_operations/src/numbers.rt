//! What operators do with the values of registers that hold numbers.

ghost use Rattle.std.specs.Prelude.{◌≡◌, Option, Some, None};
ghost use Rattle.suifvm_operations.specs.model.Words as words;
ghost use Rattle.suifvm_meaning.specs.Operations as operations;

use bk_arithmetic::comparison::truth;
use bk_arithmetic::integer_type::IntegerType;
use bk_arithmetic::outcome::ArithmeticOutcome;
use mem_model::value::Value;
use suifvm_ir::insn::{CompareOp, ShiftOp, VmBinaryOp, VmUnaryOp};
use suifvm_ir::types::{MemoryType, VmType};
use suifvm_meaning::answer::Answer;

/// The integer type of a register; that of a pointer is none.
pub(crate) fn integer_of(ty: VmType) -> Option<IntegerType>
    ensures { result ≡ operations.integer_of ty }
{
    match ty {
        VmType::S32 => Some(IntegerType::Int),
        VmType::U32 => Some(IntegerType::UnsignedInt),
        VmType::S64 => Some(IntegerType::Long),
        VmType::U64 => Some(IntegerType::UnsignedLong),
        VmType::P64 => None,
    }
}

/// The integer type of memory; that of a pointer is none.
pub(crate) fn memory_integer(ty: MemoryType) -> Option<IntegerType>
    ensures { result ≡ operations.memory_integer ty }
{
    match ty {
        MemoryType::S8 => Some(IntegerType::Char),
        MemoryType::U8 => Some(IntegerType::UnsignedChar),
        MemoryType::S16 => Some(IntegerType::Short),
        MemoryType::U16 => Some(IntegerType::UnsignedShort),
        MemoryType::S32 => Some(IntegerType::Int),
        MemoryType::U32 => Some(IntegerType::UnsignedInt),
        MemoryType::S64 => Some(IntegerType::Long),
        MemoryType::U64 => Some(IntegerType::UnsignedLong),
        MemoryType::P64 => None,
    }
}

/// Whether a register of the type may be read where it holds the value.
pub fn is_value_of(ty: VmType, value: Value) -> bool
    ensures { result ≡ operations.is_value_of ty value }
{
    match integer_of(ty) {
        None => match value {
            Value::Word(_) => true,
            Value::Address(_) => true,
            Value::Unset => false,
        },
        Some(t) => match value {
            Value::Word(word) => t.is_word(word),
            Value::Address(_) => false,
            Value::Unset => false,
        },
    }
}

/// The value as it is, where it may be read.
#[inline(always)]
pub fn when_value(ty: VmType, value: Value) -> Answer
    ensures { result ≡ operations.when_value ty value }
{
    if is_value_of(ty, value) {
        Answer::Gives(value)
    } else {
        Answer::Fails
    }
}

/// What an operation on integers comes to.
#[inline(always)]
fn of_outcome(outcome: ArithmeticOutcome) -> Answer
    ensures { result ≡ operations.outcome_answer outcome }
{
    match outcome {
        ArithmeticOutcome::Word(word) => Answer::Gives(Value::Word(word)),
        ArithmeticOutcome::Trap(code) => Answer::TrapsWith(code),
        ArithmeticOutcome::Undefined => Answer::Fails,
    }
}

/// An operation on one number.
#[inline(always)]
fn unary_number(op: VmUnaryOp, t: IntegerType, word: u64) -> Answer
    ensures { result ≡ operations.unary_number op t word }
{
    match op {
        VmUnaryOp::Move => Answer::Gives(Value::Word(word)),
        VmUnaryOp::Negate => of_outcome(t.negate(word)),
        VmUnaryOp::Complement => Answer::Gives(Value::Word(t.complement(word))),
    }
}

/// An operation on the value of a register of numbers.
#[inline(always)]
fn unary_in(op: VmUnaryOp, t: IntegerType, value: Value) -> Answer
    ensures { result ≡ operations.on_number (Some t) value (operations.unary_number op) }
{
    match value {
        Value::Word(word) => if t.is_word(word) {
            unary_number(op, t, word)
        } else {
            Answer::Fails
        },
        Value::Address(_) => Answer::Fails,
        Value::Unset => Answer::Fails,
    }
}

/// An operation on the value of a register of pointers.
#[inline(always)]
fn unary_pointer(op: VmUnaryOp, value: Value) -> Answer
    ensures { result ≡ operations.unary_pointer op value }
{
    match op {
        VmUnaryOp::Move => when_value(VmType::P64, value),
        VmUnaryOp::Negate => Answer::Fails,
        VmUnaryOp::Complement => Answer::Fails,
    }
}

/// `mov`, `neg`, `not`.
#[inline(always)]
pub fn unary(op: VmUnaryOp, ty: VmType, value: Value) -> Answer
    ensures { result ≡ operations.unary_answer op ty value }
{
    match ty {
        VmType::S32 => unary_in(op, IntegerType::Int, value),
        VmType::U32 => unary_in(op, IntegerType::UnsignedInt, value),
        VmType::S64 => unary_in(op, IntegerType::Long, value),
        VmType::U64 => unary_in(op, IntegerType::UnsignedLong, value),
        VmType::P64 => unary_pointer(op, value),
    }
}

/// A conversion between integer types.
#[inline(always)]
fn conversion_answer(from: Option<IntegerType>, to: Option<IntegerType>, value: Value) -> Answer
    ensures { result ≡ operations.conversion_answer from to value }
{
    match from {
        None => Answer::Fails,
        Some(from) => match to {
            None => Answer::Fails,
            Some(to) => match value {
                Value::Word(word) => Answer::Gives(Value::Word(from.convert(to, word))),
                Value::Address(_) => Answer::Fails,
                Value::Unset => Answer::Fails,
            },
        },
    }
}

/// `cvt`.
#[inline(always)]
pub fn convert(from: MemoryType, to: VmType, value: Value) -> Answer
    ensures { result ≡ operations.convert_answer from to value }
{
    conversion_answer(memory_integer(from), integer_of(to), value)
}

/// An operation on two numbers.
#[inline(always)]
fn binary_number(op: VmBinaryOp, t: IntegerType, a: u64, b: u64) -> Answer
    ensures { result ≡ operations.binary_number op t a b }
{
    match op {
        VmBinaryOp::Add => of_outcome(t.add(a, b)),
        VmBinaryOp::Subtract => of_outcome(t.subtract(a, b)),
        VmBinaryOp::Multiply => of_outcome(t.multiply(a, b)),
        VmBinaryOp::Divide => of_outcome(t.divide(a, b)),
        VmBinaryOp::Remainder => of_outcome(t.remainder(a, b)),
        VmBinaryOp::And => Answer::Gives(Value::Word(t.and(a, b))),
        VmBinaryOp::Or => Answer::Gives(Value::Word(t.or(a, b))),
        VmBinaryOp::ExclusiveOr => Answer::Gives(Value::Word(t.exclusive_or(a, b))),
    }
}

/// The word of a value, where a register of these numbers may be read.
#[inline(always)]
fn word_in(t: IntegerType, value: Value) -> Option<u64>
    ensures { result ≡ words.word_in t value }
{
    match value {
        Value::Word(word) => if t.is_word(word) { Some(word) } else { None },
        Value::Address(_) => None,
        Value::Unset => None,
    }
}

/// An operation on two registers of numbers.
#[inline(always)]
#[tactic(auto, using(crate::proofs::Words::on_two, crate::proofs::Words::on_first, crate::proofs::Words::on_second))]
pub(crate) fn binary_in(op: VmBinaryOp, t: IntegerType, a: Value, b: Value) -> Answer
    ensures { result ≡ operations.on_numbers (Some t) a b (operations.binary_number op) }
{
    let Some(first) = word_in(t, a) else {
        return Answer::Fails;
    };
    let Some(second) = word_in(t, b) else {
        return Answer::Fails;
    };
    binary_number(op, t, first, second)
}

/// The type of the same width whose numbers have signs.
fn with_sign(t: IntegerType) -> IntegerType
    ensures { result ≡ operations.signed_type t }
{
    match t {
        IntegerType::UnsignedInt => IntegerType::Int,
        IntegerType::UnsignedLong => IntegerType::Long,
        t => t,
    }
}

/// The type of the same width whose numbers have none.
fn without_sign(t: IntegerType) -> IntegerType
    ensures { result ≡ operations.without_sign t }
{
    match t {
        IntegerType::Int => IntegerType::UnsignedInt,
        IntegerType::Long => IntegerType::UnsignedLong,
        t => t,
    }
}

/// A shift of a number.
#[inline(always)]
fn shift_number(op: ShiftOp, t: IntegerType, word: u64, count: u64) -> Answer
    ensures { result ≡ operations.shift_number op t word count }
{
    let unsigned = IntegerType::UnsignedLong;
    match op {
        ShiftOp::ArithmeticRight => of_outcome(with_sign(t).shift_right(unsigned, word, count)),
        ShiftOp::Left => of_outcome(t.shift_left(unsigned, word, count)),
        ShiftOp::LogicalRight => of_outcome(without_sign(t).shift_right(unsigned, word, count)),
    }
}

/// A comparison of two numbers.
#[inline(always)]
fn compare_number(op: CompareOp, t: IntegerType, a: u64, b: u64) -> bool
    ensures { result ≡ operations.compare_number op t a b }
{
    match op {
        CompareOp::Equal => t.is_equal(a, b),
        CompareOp::NotEqual => !t.is_equal(a, b),
        CompareOp::Less => t.is_less(a, b),
        CompareOp::LessOrEqual => t.is_less_or_equal(a, b),
    }
}

/// A shift of a register of numbers by the word of another register.
#[inline(always)]
#[tactic(auto, using(crate::proofs::Words::on_shift, crate::proofs::Words::on_none, crate::proofs::Words::on_no_count))]
fn shift_in(op: ShiftOp, t: IntegerType, value: Value, count: Value) -> Answer
    ensures { result ≡ operations.on_number (Some t) value (operations.shift_by op count) }
{
    let Some(word) = word_in(t, value) else {
        return Answer::Fails;
    };
    let Some(bits) = word_in(IntegerType::UnsignedLong, count) else {
        return Answer::Fails;
    };
    shift_number(op, t, word, bits)
}

/// `asr`, `lsl`, `lsr`.
#[inline(always)]
pub fn shift(op: ShiftOp, ty: VmType, value: Value, count: Value) -> Answer
    ensures { result ≡ operations.shift_answer op ty value count }
{
    match ty {
        VmType::S32 => shift_in(op, IntegerType::Int, value, count),
        VmType::U32 => shift_in(op, IntegerType::UnsignedInt, value, count),
        VmType::S64 => shift_in(op, IntegerType::Long, value, count),
        VmType::U64 => shift_in(op, IntegerType::UnsignedLong, value, count),
        VmType::P64 => Answer::Fails,
    }
}

/// A comparison of two registers of numbers.
#[inline(always)]
#[tactic(auto, using(crate::proofs::Words::on_two, crate::proofs::Words::on_first, crate::proofs::Words::on_second))]
pub(crate) fn compare_in(op: CompareOp, t: IntegerType, a: Value, b: Value) -> Answer
    ensures { result ≡ operations.on_numbers (Some t) a b (operations.comparison_answer op) }
{
    let Some(first) = word_in(t, a) else {
        return Answer::Fails;
    };
    let Some(second) = word_in(t, b) else {
        return Answer::Fails;
    };
    Answer::Gives(Value::Word(truth(compare_number(op, t, first, second))))
}
