//! The operators of integers, and those that move pointers (C99 6.5.3.3, 6.5.5 to 6.5.7, 6.5.10 to 6.5.12).

ghost use Rattle.std.specs.Prelude.{◌≡◌, IfOk};
ghost use Rattle.c_typing_rules.specs.Arithmetic as spec;
ghost use Rattle.c_typing_rules.specs.Rulings.{RuleGives};
ghost use Rattle.c_typing_rules.specs.Values as values;

use crate::refusal::{Refusal, refuse};
use crate::trees::{binary, binary_in, convert_tree, unary};
use crate::typed::TypedExpression;
use crate::types::{integer_type, is_integer, is_same, points_to_object};
use bk_arithmetic::integer_type::IntegerType;
use c_tree::{BinaryOp, UnaryOp};
use c_typed_tree::layout::integer_of;
use c_typed_tree::{CType, StructDef};
use c_typing_faults::Kind;
use std::alloc::{AllocError, Global};

fn promoted_type(t: IntegerType) -> CType
    ensures { result ≡ spec.promoted_type t }
{
    integer_type(t.promote())
}

fn common_type(s: IntegerType, t: IntegerType) -> CType
    ensures { result ≡ spec.common_type s t }
{
    integer_type(s.common(t))
}

/// `+`, `-` or `~` in front of an integer.
pub fn unary_arithmetic(
    alloc: Global,
    at: u32,
    op: UnaryOp,
    a: TypedExpression,
) -> Result<TypedExpression, Refusal>
    ensures { RuleGives (spec.unary_arithmetic at op a) result }
{
    match integer_of(&a.ty) {
        None => Err(refuse(at, Kind::BadOperand)),
        Some(t) => {
            let ty = promoted_type(t);
            let operand = convert_tree(alloc, &ty, a)?;
            Ok(unary(alloc, at, ty, op, operand)?)
        }
    }
}

/// Two integers in their common type.
fn in_common(
    alloc: Global,
    at: u32,
    op: BinaryOp,
    a: TypedExpression,
    b: TypedExpression,
    ty: CType,
) -> Result<TypedExpression, AllocError>
    ensures { IfOk result (λ r. r ≡ values.binary_in at ty op ty a b) }
{
    let to = ty.copy(alloc)?;
    binary_in(alloc, at, ty, op, &to, a, b)
}

/// `*`, `/`, `%`, `&`, `^` or `|`, or another operator where both operands are integers.
pub fn arithmetic(
    alloc: Global,
    at: u32,
    op: BinaryOp,
    a: TypedExpression,
    b: TypedExpression,
) -> Result<TypedExpression, Refusal>
    ensures { RuleGives (spec.arithmetic at op a b) result }
{
    match integer_of(&a.ty) {
        None => Err(refuse(at, Kind::BadOperand)),
        Some(s) => match integer_of(&b.ty) {
            None => Err(refuse(at, Kind::BadOperand)),
            Some(t) => Ok(in_common(alloc, at, op, a, b, common_type(s, t))?),
        },
    }
}

/// Two integers, each in its promoted type.
fn each_promoted(
    alloc: Global,
    at: u32,
    op: BinaryOp,
    a: TypedExpression,
    b: TypedExpression,
    left: CType,
    right: CType,
) -> Result<TypedExpression, AllocError>
    ensures { IfOk result
        (λ r. r ≡ values.binary_rvalue at left op (values.convert_tree left a) (values.convert_tree right b)) }
{
    let a = convert_tree(alloc, &left, a)?;
    let b = convert_tree(alloc, &right, b)?;
    binary(alloc, at, left, op, a, b)
}

/// `<<` or `>>`.
pub fn shift(
    alloc: Global,
    at: u32,
    op: BinaryOp,
    a: TypedExpression,
    b: TypedExpression,
) -> Result<TypedExpression, Refusal>
    ensures { RuleGives (spec.bitwise_shift at op a b) result }
{
    match integer_of(&a.ty) {
        None => Err(refuse(at, Kind::BadOperand)),
        Some(s) => match integer_of(&b.ty) {
            None => Err(refuse(at, Kind::BadOperand)),
            Some(t) => Ok(each_promoted(alloc, at, op, a, b, promoted_type(s), promoted_type(t))?),
        },
    }
}

/// `+`.
pub fn sum(
    alloc: Global,
    structs: &[StructDef],
    at: u32,
    a: TypedExpression,
    b: TypedExpression,
) -> Result<TypedExpression, Refusal>
    ensures { RuleGives (spec.addition structs.now at a b) result }
{
    if points_to_object(structs, &a.ty) {
        if is_integer(&b.ty) {
            return Ok(binary(alloc, at, a.ty, BinaryOp::Add, a.tree, b.tree)?);
        }
        return Err(refuse(at, Kind::BadOperand));
    }
    if points_to_object(structs, &b.ty) {
        if is_integer(&a.ty) {
            return Ok(binary(alloc, at, b.ty, BinaryOp::Add, a.tree, b.tree)?);
        }
        return Err(refuse(at, Kind::BadOperand));
    }
    arithmetic(alloc, at, BinaryOp::Add, a, b)
}

/// `-` between two operands.
pub fn difference(
    alloc: Global,
    structs: &[StructDef],
    at: u32,
    a: TypedExpression,
    b: TypedExpression,
) -> Result<TypedExpression, Refusal>
    ensures { RuleGives (spec.subtraction structs.now at a b) result }
{
    if points_to_object(structs, &a.ty) {
        if is_integer(&b.ty) {
            return Ok(binary(alloc, at, a.ty, BinaryOp::Subtract, a.tree, b.tree)?);
        }
        if is_same(&a.ty, &b.ty) {
            let ty = integer_type(IntegerType::Long);
            return Ok(binary(alloc, at, ty, BinaryOp::Subtract, a.tree, b.tree)?);
        }
        return Err(refuse(at, Kind::BadOperand));
    }
    arithmetic(alloc, at, BinaryOp::Subtract, a, b)
}
