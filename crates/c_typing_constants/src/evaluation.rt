//! What is known of an expression as a constant.

ghost use Rattle.std.specs.Prelude.{◌≡◌, ◌&&◌, is_some};
ghost use Rattle.c_typed_tree.specs.View.{type_view};
ghost use Rattle.c_typing_constants.specs.model.Evaluations as spec;

use crate::operators::{
    after_and, after_or, binary_value, choice, converted_value, is_pure_operator, unary_value,
};
use bk_arithmetic::integer_type::IntegerType;
use c_tree::{BinaryOp, UnaryOp};
use c_typed_tree::CType;
use c_typed_tree::layout::integer_of;

/// What is known of an expression as a constant.
#[derive(Clone, Copy, Debug, PartialEq, Eq)]
pub(crate) struct Evaluation {
    /// Its type, where that is an integer type.
    pub ty: Option<IntegerType>,
    /// Whether it is built of what integer constants are built of.
    pub built: bool,
    /// Its value as a word of its type, where it is an integer constant.
    pub value: Option<u64>,
}

/// What is known before the first of the operands of commas.
pub(crate) fn start() -> Evaluation
    ensures { result ≡ spec.start }
{
    Evaluation {
        ty: None,
        built: true,
        value: Some(0),
    }
}

fn both(a: bool, b: bool) -> bool
    ensures { result ≡ (a && b) }
{
    a && b
}

fn is_some(ty: Option<IntegerType>) -> bool
    ensures { result ≡ is_some ty }
{
    match ty {
        None => false,
        Some(_) => true,
    }
}

/// An integer.
pub(crate) fn number(ty: &CType, word: u64) -> Evaluation
    ensures { result ≡ spec.number (type_view ty.now) word }
{
    match integer_of(ty) {
        None => Evaluation {
            ty: None,
            built: false,
            value: None,
        },
        Some(t) => Evaluation {
            ty: Some(t),
            built: true,
            value: Some(word),
        },
    }
}

/// An expression of a form that no integer constant has.
pub(crate) fn no_constant(ty: &CType) -> Evaluation
    ensures { result ≡ spec.no_constant (type_view ty.now) }
{
    Evaluation {
        ty: integer_of(ty),
        built: false,
        value: None,
    }
}

fn value_behind(op: UnaryOp, x: Evaluation) -> Option<u64>
    ensures { result ≡ spec.value_behind op x }
{
    match x.value {
        None => None,
        Some(word) => unary_value(op, x.ty, word),
    }
}

/// An operator in front of an operand.
pub(crate) fn unary(ty: &CType, op: UnaryOp, x: Evaluation) -> Evaluation
    ensures { result ≡ spec.unary (type_view ty.now) op x }
{
    let ty = integer_of(ty);
    Evaluation {
        ty,
        built: both(is_some(ty), both(is_pure_operator(op), x.built)),
        value: value_behind(op, x),
    }
}

fn value_of_both(op: BinaryOp, x: Evaluation, y: Evaluation) -> Option<u64>
    ensures { result ≡ spec.value_of_both op x y }
{
    match x.value {
        None => None,
        Some(left) => match y.value {
            None => None,
            Some(right) => binary_value(op, x.ty, y.ty, left, right),
        },
    }
}

fn value_between(op: BinaryOp, x: Evaluation, y: Evaluation) -> Option<u64>
    ensures { result ≡ spec.value_between op x y }
{
    match op {
        BinaryOp::LogicalAnd => after_and(x.value, y.built, y.value),
        BinaryOp::LogicalOr => after_or(x.value, y.built, y.value),
        BinaryOp::Or => value_of_both(op, x, y),
        BinaryOp::Xor => value_of_both(op, x, y),
        BinaryOp::And => value_of_both(op, x, y),
        BinaryOp::Equal => value_of_both(op, x, y),
        BinaryOp::NotEqual => value_of_both(op, x, y),
        BinaryOp::Less => value_of_both(op, x, y),
        BinaryOp::Greater => value_of_both(op, x, y),
        BinaryOp::LessEqual => value_of_both(op, x, y),
        BinaryOp::GreaterEqual => value_of_both(op, x, y),
        BinaryOp::ShiftLeft => value_of_both(op, x, y),
        BinaryOp::ShiftRight => value_of_both(op, x, y),
        BinaryOp::Add => value_of_both(op, x, y),
        BinaryOp::Subtract => value_of_both(op, x, y),
        BinaryOp::Multiply => value_of_both(op, x, y),
        BinaryOp::Divide => value_of_both(op, x, y),
        BinaryOp::Remainder => value_of_both(op, x, y),
    }
}

/// An operator between two operands.
pub(crate) fn binary(ty: &CType, op: BinaryOp, x: Evaluation, y: Evaluation) -> Evaluation
    ensures { result ≡ spec.binary (type_view ty.now) op x y }
{
    let ty = integer_of(ty);
    Evaluation {
        ty,
        built: both(is_some(ty), both(x.built, y.built)),
        value: value_between(op, x, y),
    }
}

/// `?:`.
pub(crate) fn conditional(ty: &CType, x: Evaluation, y: Evaluation, z: Evaluation) -> Evaluation
    ensures { result ≡ spec.conditional (type_view ty.now) x y z }
{
    let ty = integer_of(ty);
    let arms = both(y.built, z.built);
    Evaluation {
        ty,
        built: both(is_some(ty), both(x.built, arms)),
        value: choice(x.value, arms, y.value, z.value),
    }
}

fn value_in(ty: Option<IntegerType>, x: Evaluation) -> Option<u64>
    ensures { result ≡ spec.value_in ty x }
{
    match x.value {
        None => None,
        Some(word) => converted_value(x.ty, ty, word),
    }
}

/// A cast or a conversion.
pub(crate) fn evaluation_in(ty: &CType, x: Evaluation) -> Evaluation
    ensures { result ≡ spec.evaluation_in (type_view ty.now) x }
{
    let ty = integer_of(ty);
    Evaluation {
        ty,
        built: both(is_some(ty), x.built),
        value: value_in(ty, x),
    }
}

fn value_of_last(nothing: bool, all: Evaluation) -> Option<u64>
    ensures { result ≡ spec.value_of_last nothing all }
{
    if nothing {
        return None;
    }
    all.value
}

/// The operands of commas, and whether there are none.
pub(crate) fn comma(ty: &CType, nothing: bool, all: Evaluation) -> Evaluation
    ensures { result ≡ spec.comma (type_view ty.now) nothing all }
{
    let ty = integer_of(ty);
    Evaluation {
        ty,
        built: both(is_some(ty), all.built),
        value: value_of_last(nothing, all),
    }
}

fn value_after(all: Evaluation, next: Evaluation) -> Option<u64>
    ensures { result ≡ spec.value_after all next }
{
    match all.value {
        None => None,
        Some(_) => next.value,
    }
}

/// An operand behind others.
pub(crate) fn sequence(all: Evaluation, next: Evaluation) -> Evaluation
    ensures { result ≡ spec.sequence all next }
{
    Evaluation {
        ty: next.ty,
        built: both(all.built, next.built),
        value: value_after(all, next),
    }
}
