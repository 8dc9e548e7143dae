//! Names, constants and string literals (C99 6.4.4, 6.4.5, 6.5.1).

ghost use Rattle.std.specs.Prelude.{◌≡◌, IfOk};
ghost use Rattle.c_typed_tree.specs.declared.expressions.TExpr as x;
ghost use Rattle.c_typing_primary_rules.specs.Primary as spec;
ghost use Rattle.c_typing_rules.specs.Rulings.{RuleGives};

use bk_arithmetic::integer_type::IntegerType;
use bk_containers::Box;
use c_typed_tree::{CType, TExpr};
use c_typing_faults::Kind;
use c_typing_literals::{character, integer};
use c_typing_place_rules::members::number;
use c_typing_rules::types::integer_type;
use c_typing_rules::{LvalueKind, Refusal, TypedExpression, refuse};
use std::alloc::{AllocError, Global};

/// An integer constant, by its spelling.
pub fn integer_constant(alloc: Global, at: u32, spelling: &[u8]) -> Result<TypedExpression, Refusal>
    ensures { RuleGives (spec.integer_constant at spelling.now) result }
{
    match integer(spelling) {
        None => Err(refuse(at, Kind::BadLiteral)),
        Some(literal) => Ok(number(alloc, at, literal.ty, literal.word)?),
    }
}

/// A character constant, by its spelling.
pub fn character_constant(
    alloc: Global,
    at: u32,
    spelling: &[u8],
) -> Result<TypedExpression, Refusal>
    ensures { RuleGives (spec.character_constant at spelling.now) result }
{
    match character(spelling) {
        None => Err(refuse(at, Kind::BadLiteral)),
        Some(word) => Ok(number(alloc, at, IntegerType::Int, word)?),
    }
}

/// An enumeration constant, as a word of the type `int`.
pub fn enumeration_constant(
    alloc: Global,
    at: u32,
    word: u64,
) -> Result<TypedExpression, AllocError>
    ensures { IfOk result (λ r. r ≡ spec.enumeration_constant at word) }
{
    number(alloc, at, IntegerType::Int, word)
}

fn local_tree(alloc: Global, of: &CType, number: u32) -> Result<Box<TExpr>, AllocError>
    ensures { IfOk result (λ r. r ≡ x.Local of.now number) }
{
    let ty = of.copy(alloc)?;
    Box::new(alloc, TExpr::Local { ty, number })
}

/// The local or parameter with a number.
pub fn local(alloc: Global, at: u32, number: u32, of: &CType) -> Result<TypedExpression, AllocError>
    ensures { IfOk result (λ r. r ≡ spec.local at number of.now) }
{
    let tree = local_tree(alloc, of, number)?;
    let ty = of.copy(alloc)?;
    Ok(TypedExpression {
        at,
        tree,
        ty,
        place: LvalueKind::Local(number),
    })
}

fn object_tree(alloc: Global, of: &CType, number: u32) -> Result<Box<TExpr>, AllocError>
    ensures { IfOk result (λ r. r ≡ x.Global of.now number) }
{
    let ty = of.copy(alloc)?;
    Box::new(alloc, TExpr::Global { ty, number })
}

/// The object of static storage with a number.
pub fn object(
    alloc: Global,
    at: u32,
    number: u32,
    of: &CType,
) -> Result<TypedExpression, AllocError>
    ensures { IfOk result (λ r. r ≡ spec.static_object at number of.now) }
{
    let tree = object_tree(alloc, of, number)?;
    let ty = of.copy(alloc)?;
    Ok(TypedExpression {
        at,
        tree,
        ty,
        place: LvalueKind::Global(number),
    })
}

/// The type of a string literal with so many bytes, the zero at its end counted.
pub fn text_type(alloc: Global, length: u64) -> Result<CType, AllocError>
    ensures { IfOk result (λ r. r ≡ spec.text_type length) }
{
    Ok(CType::Array(Box::new(alloc, integer_type(IntegerType::Char))?, length))
}

/// A string literal, which is the object of static storage with a number.
pub fn text(alloc: Global, at: u32, number: u32, length: u64) -> Result<TypedExpression, AllocError>
    ensures { IfOk result (λ r. r ≡ spec.text at number length) }
{
    let ty = text_type(alloc, length)?;
    object(alloc, at, number, &ty)
}
