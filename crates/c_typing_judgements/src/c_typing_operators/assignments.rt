//! Assignments (C99 6.5.16).

ghost use Rattle.c_typing_judgements.specs.c_typing_operators.Assigned as spec;
ghost use Rattle.c_typing_rules.specs.Rulings.{RuleGives};

use crate::c_typing_operators::null::is_null_for;
use c_tree::AssignOp;
use c_typed_tree::StructDef;
use c_typing_place_rules::assignments::{compound, set};
use c_typing_rules::conversions::decay;
use c_typing_rules::{Refusal, TypedExpression};
use std::alloc::Global;

fn set_to(
    alloc: Global,
    at: u32,
    a: TypedExpression,
    b: TypedExpression,
) -> Result<TypedExpression, Refusal>
    ensures { RuleGives (spec.set_with_null at a b) result }
{
    let null = is_null_for(&a.ty, &b);
    set(alloc, at, a, b, null)
}

/// An assignment of a value.
fn with_value(
    alloc: Global,
    structs: &[StructDef],
    at: u32,
    op: AssignOp,
    a: TypedExpression,
    b: TypedExpression,
) -> Result<TypedExpression, Refusal>
    ensures { RuleGives (spec.assign_rvalue structs.now at op a b) result }
{
    match op {
        AssignOp::Set => set_to(alloc, at, a, b),
        AssignOp::Multiply => compound(alloc, structs, at, AssignOp::Multiply, a, b),
        AssignOp::Divide => compound(alloc, structs, at, AssignOp::Divide, a, b),
        AssignOp::Remainder => compound(alloc, structs, at, AssignOp::Remainder, a, b),
        AssignOp::Add => compound(alloc, structs, at, AssignOp::Add, a, b),
        AssignOp::Subtract => compound(alloc, structs, at, AssignOp::Subtract, a, b),
        AssignOp::ShiftLeft => compound(alloc, structs, at, AssignOp::ShiftLeft, a, b),
        AssignOp::ShiftRight => compound(alloc, structs, at, AssignOp::ShiftRight, a, b),
        AssignOp::And => compound(alloc, structs, at, AssignOp::And, a, b),
        AssignOp::Xor => compound(alloc, structs, at, AssignOp::Xor, a, b),
        AssignOp::Or => compound(alloc, structs, at, AssignOp::Or, a, b),
    }
}

/// An assignment.
pub fn assign(
    alloc: Global,
    structs: &[StructDef],
    at: u32,
    op: AssignOp,
    a: TypedExpression,
    b: TypedExpression,
) -> Result<TypedExpression, Refusal>
    ensures { RuleGives (spec.assign structs.now at op a b) result }
{
    let value = decay(alloc, b)?;
    with_value(alloc, structs, at, op, a, value)
}
