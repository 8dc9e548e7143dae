//! Casts and sizes of types (C99 6.5.3.4, 6.5.4).

ghost use Rattle.c_typing_judgements.specs.c_typing_operators.Casts as spec;
ghost use Rattle.c_typing_rules.specs.Rulings.{RuleGives};

use crate::c_typing_operators::null::is_null_for;
use c_typed_tree::{CType, StructDef};
use c_typing_faults::Kind;
use c_typing_place_rules::members::size;
use c_typing_rules::c_typing_declared_types::DeclaredType;
use c_typing_rules::conversions::{cast, decay};
use c_typing_rules::{Refusal, TypedExpression, refuse};
use std::alloc::Global;

fn cast_value(
    alloc: Global,
    at: u32,
    to: CType,
    a: TypedExpression,
) -> Result<TypedExpression, Refusal>
    ensures { RuleGives (spec.cast_to_value at to a) result }
{
    let value = decay(alloc, a)?;
    let null = is_null_for(&to, &value);
    cast(alloc, at, to, value, null)
}

/// A cast to the type that a type name gives.
pub fn cast_to(
    alloc: Global,
    at: u32,
    to: DeclaredType,
    a: TypedExpression,
) -> Result<TypedExpression, Refusal>
    ensures { RuleGives (spec.cast_to at to a) result }
{
    match to {
        DeclaredType::Value(ty) => cast_value(alloc, at, ty, a),
        DeclaredType::Unsized(_) => Err(refuse(at, Kind::BadConversion)),
        DeclaredType::Function { .. } => Err(refuse(at, Kind::BadConversion)),
    }
}

/// `sizeof` of the type that a type name gives.
pub fn size_of_type(
    alloc: Global,
    structs: &[StructDef],
    at: u32,
    of: &DeclaredType,
) -> Result<TypedExpression, Refusal>
    ensures { RuleGives (spec.size_of_type structs.now at of.now) result }
{
    match of {
        DeclaredType::Value(ty) => size(alloc, structs, at, ty),
        DeclaredType::Unsized(_) => Err(refuse(at, Kind::BadOperand)),
        DeclaredType::Function { .. } => Err(refuse(at, Kind::BadOperand)),
    }
}
