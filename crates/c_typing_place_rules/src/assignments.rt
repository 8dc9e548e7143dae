//! Assignments (C99 6.5.16).

ghost use Rattle.std.specs.Prelude.{◌≡◌, IfOk};
ghost use Rattle.c_typing_place_rules.specs.Assignments as spec;
ghost use Rattle.c_typing_rules.specs.Rulings.{RuleGives};

use crate::places::is_assignable;
use bk_arithmetic::integer_type::IntegerType;
use bk_containers::Box;
use c_tree::AssignOp;
use c_typed_tree::layout::integer_of;
use c_typed_tree::{CType, StructDef, TExpr};
use c_typing_faults::Kind;
use c_typing_rules::conversions::value_for_type;
use c_typing_rules::trees::convert_tree;
use c_typing_rules::types::{integer_type, points_to_object};
use c_typing_rules::{Refusal, TypedExpression, refuse, value};
use std::alloc::{AllocError, Global};

fn assign_place(
    alloc: Global,
    at: u32,
    op: AssignOp,
    a: TypedExpression,
    right: Box<TExpr>,
) -> Result<TypedExpression, AllocError>
    ensures { IfOk result (λ r. r ≡ spec.assign_place at op a right) }
{
    let ty = a.ty.copy(alloc)?;
    let left = a.tree;
    let tree = Box::new(
        alloc,
        TExpr::Assign {
            ty,
            op,
            left,
            right,
        },
    )?;
    Ok(value(at, a.ty, tree))
}

/// `=`. It is given whether the right side is a null pointer constant.
pub fn set(
    alloc: Global,
    at: u32,
    a: TypedExpression,
    b: TypedExpression,
    null: bool,
) -> Result<TypedExpression, Refusal>
    ensures { RuleGives (spec.set at a b null) result }
{
    if is_assignable(&a) {
        return match value_for_type(alloc, &a.ty, b, null) {
            Ok(right) => Ok(assign_place(alloc, at, AssignOp::Set, a, right)?),
            Err(Refusal::Refused(fault)) => Err(Refusal::Refused(fault)),
            Err(Refusal::NoMemory) => Err(Refusal::NoMemory),
        };
    }
    Err(refuse(a.at, Kind::NotAssignable))
}

fn shifts(op: AssignOp) -> bool
    ensures { result ≡ spec.shifts op }
{
    match op {
        AssignOp::ShiftLeft | AssignOp::ShiftRight => true,
        AssignOp::Set
        | AssignOp::Multiply
        | AssignOp::Divide
        | AssignOp::Remainder
        | AssignOp::Add
        | AssignOp::Subtract
        | AssignOp::And
        | AssignOp::Xor
        | AssignOp::Or => false,
    }
}

fn moves(op: AssignOp) -> bool
    ensures { result ≡ spec.moves op }
{
    match op {
        AssignOp::Add | AssignOp::Subtract => true,
        AssignOp::Set
        | AssignOp::Multiply
        | AssignOp::Divide
        | AssignOp::Remainder
        | AssignOp::ShiftLeft
        | AssignOp::ShiftRight
        | AssignOp::And
        | AssignOp::Xor
        | AssignOp::Or => false,
    }
}

fn right_type(op: AssignOp, s: IntegerType, t: IntegerType) -> CType
    ensures { result ≡ spec.right_type op s t }
{
    if shifts(op) {
        return integer_type(t.promote());
    }
    integer_type(s.common(t))
}

/// A pointer that is moved in its place.
fn moved_place(
    alloc: Global,
    structs: &[StructDef],
    at: u32,
    op: AssignOp,
    a: TypedExpression,
    b: TypedExpression,
) -> Result<TypedExpression, Refusal>
    ensures { RuleGives (spec.moved_place structs.now at op a b) result }
{
    if moves(op) {
        if points_to_object(structs, &a.ty) {
            return Ok(assign_place(alloc, at, op, a, b.tree)?);
        }
        return Err(refuse(at, Kind::BadOperand));
    }
    Err(refuse(at, Kind::BadOperand))
}

/// A compound assignment.
pub fn compound(
    alloc: Global,
    structs: &[StructDef],
    at: u32,
    op: AssignOp,
    a: TypedExpression,
    b: TypedExpression,
) -> Result<TypedExpression, Refusal>
    ensures { RuleGives (spec.compound structs.now at op a b) result }
{
    if is_assignable(&a) {
        return match integer_of(&b.ty) {
            None => Err(refuse(at, Kind::BadOperand)),
            Some(t) => match integer_of(&a.ty) {
                None => moved_place(alloc, structs, at, op, a, b),
                Some(s) => {
                    let ty = right_type(op, s, t);
                    let right = convert_tree(alloc, &ty, b)?;
                    Ok(assign_place(alloc, at, op, a, right)?)
                }
            },
        };
    }
    Err(refuse(a.at, Kind::NotAssignable))
}
