//! Comparisons, and the operators that ask whether an operand is zero (C99 6.5.3.3, 6.5.8, 6.5.13, 6.5.14).

ghost use Rattle.std.specs.Prelude.{◌≡◌};
ghost use Rattle.c_typing_rules.specs.Comparisons as spec;
ghost use Rattle.c_typing_rules.specs.Rulings.{RuleGives};

use crate::refusal::{Refusal, refuse};
use crate::trees::{binary, binary_in, unary};
use crate::typed::TypedExpression;
use crate::types::{integer_type, is_pointer, is_same, is_scalar};
use bk_arithmetic::integer_type::IntegerType;
use bk_containers::Box;
use c_tree::{BinaryOp, UnaryOp};
use c_typed_tree::TExpr;
use c_typed_tree::layout::integer_of;
use c_typing_faults::Kind;
use std::alloc::Global;

/// A condition. It stands as it is.
pub fn condition(a: TypedExpression) -> Result<Box<TExpr>, Refusal>
    ensures { RuleGives (spec.condition a) result }
{
    if is_scalar(&a.ty) {
        return Ok(a.tree);
    }
    Err(refuse(a.at, Kind::BadOperand))
}

/// `!`.
pub fn negation(alloc: Global, at: u32, a: TypedExpression) -> Result<TypedExpression, Refusal>
    ensures { RuleGives (spec.not_operation at a) result }
{
    if is_scalar(&a.ty) {
        let ty = integer_type(IntegerType::Int);
        return Ok(unary(alloc, at, ty, UnaryOp::Not, a.tree)?);
    }
    Err(refuse(at, Kind::BadOperand))
}

/// `&&` or `||`.
pub fn logical(
    alloc: Global,
    at: u32,
    op: BinaryOp,
    a: TypedExpression,
    b: TypedExpression,
) -> Result<TypedExpression, Refusal>
    ensures { RuleGives (spec.logical at op a b) result }
{
    if is_scalar(&a.ty) {
        if is_scalar(&b.ty) {
            let ty = integer_type(IntegerType::Int);
            return Ok(binary(alloc, at, ty, op, a.tree, b.tree)?);
        }
        return Err(refuse(at, Kind::BadOperand));
    }
    Err(refuse(at, Kind::BadOperand))
}

fn are_pointers_of_one_type(a: &TypedExpression, b: &TypedExpression) -> bool
    ensures { result ≡ spec.are_pointers_of_one_type a.now b.now }
{
    is_pointer(&a.ty) && is_same(&a.ty, &b.ty)
}

/// `<`, `>`, `<=` or `>=` between pointers.
fn ordered_pointers(
    alloc: Global,
    at: u32,
    op: BinaryOp,
    a: TypedExpression,
    b: TypedExpression,
) -> Result<TypedExpression, Refusal>
    ensures { RuleGives (spec.ordered_pointers at op a b) result }
{
    if are_pointers_of_one_type(&a, &b) {
        let ty = integer_type(IntegerType::Int);
        return Ok(binary(alloc, at, ty, op, a.tree, b.tree)?);
    }
    Err(refuse(at, Kind::BadOperand))
}

/// `<`, `>`, `<=` or `>=`.
pub fn comparison(
    alloc: Global,
    at: u32,
    op: BinaryOp,
    a: TypedExpression,
    b: TypedExpression,
) -> Result<TypedExpression, Refusal>
    ensures { RuleGives (spec.comparison at op a b) result }
{
    match integer_of(&a.ty) {
        None => ordered_pointers(alloc, at, op, a, b),
        Some(s) => match integer_of(&b.ty) {
            None => Err(refuse(at, Kind::BadOperand)),
            Some(t) => {
                let ty = integer_type(IntegerType::Int);
                let to = integer_type(s.common(t));
                Ok(binary_in(alloc, at, ty, op, &to, a, b)?)
            }
        },
    }
}
