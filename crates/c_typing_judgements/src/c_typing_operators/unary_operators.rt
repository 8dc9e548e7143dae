//! Operators in front of an operand (C99 6.5.3).

ghost use Rattle.c_typing_judgements.specs.c_typing_operators.Unary as spec;
ghost use Rattle.c_typing_rules.specs.Rulings.{RuleGives};

use c_tree::UnaryOp;
use c_typed_tree::StructDef;
use c_typing_place_rules::places::{address, dereference, step_before};
use c_typing_rules::arithmetic::unary_arithmetic;
use c_typing_rules::comparisons::negation;
use c_typing_rules::conversions::decay;
use c_typing_rules::{Refusal, TypedExpression};
use std::alloc::Global;

fn led_to(
    alloc: Global,
    structs: &[StructDef],
    at: u32,
    a: TypedExpression,
) -> Result<TypedExpression, Refusal>
    ensures { RuleGives (spec.indirection structs.now at a) result }
{
    let value = decay(alloc, a)?;
    dereference(alloc, structs, at, value)
}

fn prefix_arithmetic(
    alloc: Global,
    at: u32,
    op: UnaryOp,
    a: TypedExpression,
) -> Result<TypedExpression, Refusal>
    ensures { RuleGives (spec.prefix_arithmetic at op a) result }
{
    let value = decay(alloc, a)?;
    unary_arithmetic(alloc, at, op, value)
}

fn logical_not(alloc: Global, at: u32, a: TypedExpression) -> Result<TypedExpression, Refusal>
    ensures { RuleGives (spec.logical_not at a) result }
{
    let value = decay(alloc, a)?;
    negation(alloc, at, value)
}

/// An operator in front of an operand.
pub fn unary(
    alloc: Global,
    structs: &[StructDef],
    at: u32,
    op: UnaryOp,
    a: TypedExpression,
) -> Result<TypedExpression, Refusal>
    ensures { RuleGives (spec.unary_ruling structs.now at op a) result }
{
    match op {
        UnaryOp::Increment => step_before(alloc, structs, at, UnaryOp::Increment, a),
        UnaryOp::Decrement => step_before(alloc, structs, at, UnaryOp::Decrement, a),
        UnaryOp::Address => address(alloc, at, a),
        UnaryOp::Dereference => led_to(alloc, structs, at, a),
        UnaryOp::Plus => prefix_arithmetic(alloc, at, UnaryOp::Plus, a),
        UnaryOp::Minus => prefix_arithmetic(alloc, at, UnaryOp::Minus, a),
        UnaryOp::Invert => prefix_arithmetic(alloc, at, UnaryOp::Invert, a),
        UnaryOp::Not => logical_not(alloc, at, a),
    }
}
