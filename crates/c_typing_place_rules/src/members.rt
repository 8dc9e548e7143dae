//! Members and sizes (C99 6.5.2.3, 6.5.3.4).

ghost use Rattle.std.specs.Prelude.{◌≡◌, IfOk};
ghost use Rattle.c_typed_tree.specs.declared.expressions.TExpr as x;
ghost use Rattle.c_typing_place_rules.specs.Members as spec;
ghost use Rattle.c_typing_rules.specs.Rulings.{RuleGives};

use crate::places::{is_somewhere, led_to};
use bk_arithmetic::integer_type::IntegerType;
use bk_containers::Box;
use c_typed_tree::layout::size_of;
use c_typed_tree::{CType, StructDef, TExpr};
use c_typing_faults::Kind;
use c_typing_rules::types::{integer_type, is_object, is_struct, points_to_struct};
use c_typing_rules::{LvalueKind, Refusal, TypedExpression, refuse, value};
use std::alloc::{AllocError, Global};

/// What was found of a member's name.
#[derive(Drop)]
pub struct FoundMember {
    /// The member's number in its struct.
    pub number: u32,
    pub ty: CType,
}

fn place_of_member(place: LvalueKind) -> LvalueKind
    ensures { result ≡ spec.place_of_member place }
{
    match place {
        LvalueKind::Nowhere => LvalueKind::Nowhere,
        LvalueKind::Local(number) => LvalueKind::Local(number),
        LvalueKind::Global(_) => LvalueKind::Elsewhere,
        LvalueKind::Elsewhere => LvalueKind::Elsewhere,
    }
}

fn field_tree(
    alloc: Global,
    of: &CType,
    operand: Box<TExpr>,
    member: u32,
) -> Result<Box<TExpr>, AllocError>
    ensures { IfOk result (λ r. r ≡ x.Field of.now operand member) }
{
    let ty = of.copy(alloc)?;
    Box::new(
        alloc,
        TExpr::Field {
            ty,
            operand,
            member,
        },
    )
}

fn field_found(
    alloc: Global,
    at: u32,
    a: TypedExpression,
    found: Option<FoundMember>,
) -> Result<TypedExpression, Refusal>
    ensures { RuleGives (spec.field_found at a found) result }
{
    match found {
        None => Err(refuse(at, Kind::NoMember)),
        Some(FoundMember { number, ty }) => {
            let place = place_of_member(a.place);
            let tree = field_tree(alloc, &ty, a.tree, number)?;
            Ok(TypedExpression {
                at,
                tree,
                ty,
                place,
            })
        }
    }
}

fn is_struct_place(a: &TypedExpression) -> bool
    ensures { result ≡ spec.is_struct_place a.now }
{
    if is_somewhere(a.place) {
        return is_struct(&a.ty);
    }
    false
}

/// `a.name`.
pub fn field(
    alloc: Global,
    at: u32,
    a: TypedExpression,
    found: Option<FoundMember>,
) -> Result<TypedExpression, Refusal>
    ensures { RuleGives (spec.field at a found) result }
{
    if is_struct_place(&a) {
        return field_found(alloc, at, a, found);
    }
    Err(refuse(at, Kind::BadOperand))
}

fn arrow_tree(
    alloc: Global,
    of: &CType,
    operand: Box<TExpr>,
    member: u32,
) -> Result<Box<TExpr>, AllocError>
    ensures { IfOk result (λ r. r ≡ x.Arrow of.now operand member) }
{
    let ty = of.copy(alloc)?;
    Box::new(
        alloc,
        TExpr::Arrow {
            ty,
            operand,
            member,
        },
    )
}

fn arrow_found(
    alloc: Global,
    at: u32,
    a: TypedExpression,
    found: Option<FoundMember>,
) -> Result<TypedExpression, Refusal>
    ensures { RuleGives (spec.arrow_found at a found) result }
{
    match found {
        None => Err(refuse(at, Kind::NoMember)),
        Some(FoundMember { number, ty }) => {
            let tree = arrow_tree(alloc, &ty, a.tree, number)?;
            Ok(led_to(at, ty, tree))
        }
    }
}

/// `a->name`.
pub fn arrow(
    alloc: Global,
    structs: &[StructDef],
    at: u32,
    a: TypedExpression,
    found: Option<FoundMember>,
) -> Result<TypedExpression, Refusal>
    ensures { RuleGives (spec.arrow structs.now at a found) result }
{
    if points_to_struct(structs, &a.ty) {
        return arrow_found(alloc, at, a, found);
    }
    Err(refuse(at, Kind::BadOperand))
}

/// An integer, as a word of its type.
pub fn number(
    alloc: Global,
    at: u32,
    t: IntegerType,
    word: u64,
) -> Result<TypedExpression, AllocError>
    ensures { IfOk result (λ r. r ≡ spec.number_rvalue at t word) }
{
    let tree = Box::new(
        alloc,
        TExpr::Number {
            ty: integer_type(t),
            value: word,
        },
    )?;
    Ok(value(at, integer_type(t), tree))
}

/// `sizeof` of a type, or of an expression of the type.
pub fn size(
    alloc: Global,
    structs: &[StructDef],
    at: u32,
    ty: &CType,
) -> Result<TypedExpression, Refusal>
    ensures { RuleGives (spec.size structs.now at ty.now) result }
{
    if is_object(structs, ty) {
        return Ok(number(alloc, at, IntegerType::UnsignedLong, size_of(structs, ty))?);
    }
    Err(refuse(at, Kind::BadOperand))
}
