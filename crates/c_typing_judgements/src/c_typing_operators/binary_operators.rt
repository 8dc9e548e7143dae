//! Operators between operands, elements and choices (C99 6.5.2.1, 6.5.5 to 6.5.15).

ghost use Rattle.c_typing_judgements.specs.c_typing_operators.Binary as spec;
ghost use Rattle.c_typing_rules.specs.Rulings.{RuleGives};

use crate::c_typing_operators::null::is_null_for;
use bk_containers::Box;
use c_tree::BinaryOp;
use c_typed_tree::{StructDef, TExpr};
use c_typing_place_rules::places::index;
use c_typing_rules::arithmetic::{arithmetic, difference, shift, sum};
use c_typing_rules::comparisons::{comparison, condition, logical};
use c_typing_rules::conversions::{choice, decay, equality};
use c_typing_rules::{Refusal, TypedExpression};
use std::alloc::Global;

fn equal(
    alloc: Global,
    at: u32,
    op: BinaryOp,
    a: TypedExpression,
    b: TypedExpression,
) -> Result<TypedExpression, Refusal>
    ensures { RuleGives (spec.equal at op a b) result }
{
    let null_left = is_null_for(&b.ty, &a);
    let null_right = is_null_for(&a.ty, &b);
    equality(alloc, at, op, a, b, null_left, null_right)
}

/// An operator between two values.
fn between(
    alloc: Global,
    structs: &[StructDef],
    at: u32,
    op: BinaryOp,
    a: TypedExpression,
    b: TypedExpression,
) -> Result<TypedExpression, Refusal>
    ensures { RuleGives (spec.binary_operation structs.now at op a b) result }
{
    match op {
        BinaryOp::LogicalOr => logical(alloc, at, BinaryOp::LogicalOr, a, b),
        BinaryOp::LogicalAnd => logical(alloc, at, BinaryOp::LogicalAnd, a, b),
        BinaryOp::Or => arithmetic(alloc, at, BinaryOp::Or, a, b),
        BinaryOp::Xor => arithmetic(alloc, at, BinaryOp::Xor, a, b),
        BinaryOp::And => arithmetic(alloc, at, BinaryOp::And, a, b),
        BinaryOp::Equal => equal(alloc, at, BinaryOp::Equal, a, b),
        BinaryOp::NotEqual => equal(alloc, at, BinaryOp::NotEqual, a, b),
        BinaryOp::Less => comparison(alloc, at, BinaryOp::Less, a, b),
        BinaryOp::Greater => comparison(alloc, at, BinaryOp::Greater, a, b),
        BinaryOp::LessEqual => comparison(alloc, at, BinaryOp::LessEqual, a, b),
        BinaryOp::GreaterEqual => comparison(alloc, at, BinaryOp::GreaterEqual, a, b),
        BinaryOp::ShiftLeft => shift(alloc, at, BinaryOp::ShiftLeft, a, b),
        BinaryOp::ShiftRight => shift(alloc, at, BinaryOp::ShiftRight, a, b),
        BinaryOp::Add => sum(alloc, structs, at, a, b),
        BinaryOp::Subtract => difference(alloc, structs, at, a, b),
        BinaryOp::Multiply => arithmetic(alloc, at, BinaryOp::Multiply, a, b),
        BinaryOp::Divide => arithmetic(alloc, at, BinaryOp::Divide, a, b),
        BinaryOp::Remainder => arithmetic(alloc, at, BinaryOp::Remainder, a, b),
    }
}

/// An operator between two operands.
pub fn binary(
    alloc: Global,
    structs: &[StructDef],
    at: u32,
    op: BinaryOp,
    a: TypedExpression,
    b: TypedExpression,
) -> Result<TypedExpression, Refusal>
    ensures { RuleGives (spec.binary_ruling structs.now at op a b) result }
{
    let left = decay(alloc, a)?;
    let right = decay(alloc, b)?;
    between(alloc, structs, at, op, left, right)
}

/// `a[b]`.
pub fn subscript(
    alloc: Global,
    structs: &[StructDef],
    at: u32,
    a: TypedExpression,
    b: TypedExpression,
) -> Result<TypedExpression, Refusal>
    ensures { RuleGives (spec.subscript structs.now at a b) result }
{
    let left = decay(alloc, a)?;
    let right = decay(alloc, b)?;
    index(alloc, structs, at, left, right)
}

/// A condition.
fn condition_tree(alloc: Global, c: TypedExpression) -> Result<Box<TExpr>, Refusal>
    ensures { RuleGives (spec.condition_tree c) result }
{
    let value = decay(alloc, c)?;
    condition(value)
}

/// Both arms of a choice, with its condition.
fn between_arms(
    alloc: Global,
    at: u32,
    condition: Box<TExpr>,
    a: TypedExpression,
    b: TypedExpression,
) -> Result<TypedExpression, Refusal>
    ensures { RuleGives (spec.between_arms at condition a b) result }
{
    let holds = decay(alloc, a)?;
    let fails = decay(alloc, b)?;
    let null_left = is_null_for(&fails.ty, &holds);
    let null_right = is_null_for(&holds.ty, &fails);
    choice(alloc, at, condition, holds, fails, null_left, null_right)
}

/// `?:`. Its arms are judged where its condition is without fault.
pub fn conditional(
    alloc: Global,
    at: u32,
    c: TypedExpression,
    a: TypedExpression,
    b: TypedExpression,
) -> Result<TypedExpression, Refusal>
    ensures { RuleGives (spec.conditional_ruling at c a b) result }
{
    match condition_tree(alloc, c) {
        Ok(condition) => between_arms(alloc, at, condition, a, b),
        Err(Refusal::Refused(fault)) => Err(Refusal::Refused(fault)),
        Err(Refusal::NoMemory) => Err(Refusal::NoMemory),
    }
}
