//! Operators on the words of integer constants.

ghost use Rattle.std.specs.Prelude.{◌≡◌};
ghost use Rattle.c_typed_tree.specs.Constants as spec;
ghost use Rattle.c_typing_constants.specs.model.Evaluations as model;

use bk_arithmetic::comparison::truth;
use bk_arithmetic::integer_type::IntegerType;
use bk_arithmetic::outcome::ArithmeticOutcome;
use c_tree::{BinaryOp, UnaryOp};

/// The word of what neither traps nor is undefined.
fn word_of(outcome: ArithmeticOutcome) -> Option<u64>
    ensures { result ≡ spec.word_of outcome }
{
    match outcome {
        ArithmeticOutcome::Word(word) => Some(word),
        ArithmeticOutcome::Trap(_) => None,
        ArithmeticOutcome::Undefined => None,
    }
}

/// An operator between two integers of one type; the count of a shift has a type of its own.
fn integers_with(
    op: BinaryOp,
    t: IntegerType,
    count: IntegerType,
    x: u64,
    y: u64,
) -> ArithmeticOutcome
    ensures { result ≡ spec.integers_with op t count x y }
{
    match op {
        BinaryOp::Or => ArithmeticOutcome::Word(t.or(x, y)),
        BinaryOp::Xor => ArithmeticOutcome::Word(t.exclusive_or(x, y)),
        BinaryOp::And => ArithmeticOutcome::Word(t.and(x, y)),
        BinaryOp::Equal => ArithmeticOutcome::Word(truth(t.is_equal(x, y))),
        BinaryOp::NotEqual => ArithmeticOutcome::Word(truth(!t.is_equal(x, y))),
        BinaryOp::Less => ArithmeticOutcome::Word(truth(t.is_less(x, y))),
        BinaryOp::Greater => ArithmeticOutcome::Word(truth(t.is_less(y, x))),
        BinaryOp::LessEqual => ArithmeticOutcome::Word(truth(t.is_less_or_equal(x, y))),
        BinaryOp::GreaterEqual => ArithmeticOutcome::Word(truth(t.is_less_or_equal(y, x))),
        BinaryOp::ShiftLeft => t.shift_left(count, x, y),
        BinaryOp::ShiftRight => t.shift_right(count, x, y),
        BinaryOp::Add => t.add(x, y),
        BinaryOp::Subtract => t.subtract(x, y),
        BinaryOp::Multiply => t.multiply(x, y),
        BinaryOp::Divide => t.divide(x, y),
        BinaryOp::Remainder => t.remainder(x, y),
        BinaryOp::LogicalOr => ArithmeticOutcome::Undefined,
        BinaryOp::LogicalAnd => ArithmeticOutcome::Undefined,
    }
}

/// An operator in front of an integer.
fn integer_with(op: UnaryOp, t: IntegerType, x: u64) -> Option<u64>
    ensures { result ≡ spec.integer_with op t x }
{
    match op {
        UnaryOp::Plus => Some(x),
        UnaryOp::Minus => word_of(t.negate(x)),
        UnaryOp::Invert => Some(t.complement(x)),
        UnaryOp::Not => Some(truth(x == 0)),
        UnaryOp::Increment => None,
        UnaryOp::Decrement => None,
        UnaryOp::Address => None,
        UnaryOp::Dereference => None,
    }
}

/// The same by the type of the operand.
pub(crate) fn unary_value(op: UnaryOp, ty: Option<IntegerType>, x: u64) -> Option<u64>
    ensures { result ≡ spec.unary_value op ty x }
{
    match ty {
        None => None,
        Some(t) => integer_with(op, t, x),
    }
}

pub(crate) fn binary_value(
    op: BinaryOp,
    left: Option<IntegerType>,
    right: Option<IntegerType>,
    x: u64,
    y: u64,
) -> Option<u64>
    ensures { result ≡ spec.binary_value op left right x y }
{
    match left {
        None => None,
        Some(t) => match right {
            None => None,
            Some(count) => word_of(integers_with(op, t, count, x, y)),
        },
    }
}

pub(crate) fn converted_value(
    from: Option<IntegerType>,
    to: Option<IntegerType>,
    x: u64,
) -> Option<u64>
    ensures { result ≡ spec.converted_value from to x }
{
    match from {
        None => None,
        Some(s) => match to {
            None => None,
            Some(t) => Some(s.convert(t, x)),
        },
    }
}

/// Whether the operator has no effects and is no pointer's own.
pub(crate) fn is_pure_operator(op: UnaryOp) -> bool
    ensures { result ≡ spec.is_pure_operator op }
{
    match op {
        UnaryOp::Plus => true,
        UnaryOp::Minus => true,
        UnaryOp::Invert => true,
        UnaryOp::Not => true,
        UnaryOp::Increment => false,
        UnaryOp::Decrement => false,
        UnaryOp::Address => false,
        UnaryOp::Dereference => false,
    }
}

/// Whether an operand that is evaluated is true.
fn truth_of(y: Option<u64>) -> Option<u64>
    ensures { result ≡ model.truth_of y }
{
    match y {
        None => None,
        Some(word) => Some(truth(word != 0)),
    }
}

/// `&&`, of which the right operand is built as a constant or not.
pub(crate) fn after_and(x: Option<u64>, built: bool, y: Option<u64>) -> Option<u64>
    ensures { result ≡ spec.and_value x built y }
{
    match x {
        None => None,
        Some(word) => {
            if built {
                if word == 0 {
                    return Some(0);
                }
                return truth_of(y);
            }
            None
        }
    }
}

/// `||`.
pub(crate) fn after_or(x: Option<u64>, built: bool, y: Option<u64>) -> Option<u64>
    ensures { result ≡ spec.or_value x built y }
{
    match x {
        None => None,
        Some(word) => {
            if built {
                if word == 0 {
                    return truth_of(y);
                }
                return Some(1);
            }
            None
        }
    }
}

/// `?:`.
pub(crate) fn choice(
    x: Option<u64>,
    built: bool,
    holds: Option<u64>,
    fails: Option<u64>,
) -> Option<u64>
    ensures { result ≡ spec.choice_value x built holds fails }
{
    match x {
        None => None,
        Some(word) => {
            if built {
                if word == 0 {
                    return fails;
                }
                return holds;
            }
            None
        }
    }
}
