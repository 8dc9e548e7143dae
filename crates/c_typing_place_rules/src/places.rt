//! Places: what pointers lead to, addresses, and steps (C99 6.5.2.1, 6.5.2.4, 6.5.3.1, 6.5.3.2).

ghost use Rattle.std.specs.Prelude.{◌≡◌, IfOk};
ghost use Rattle.c_typing_place_rules.specs.Places as spec;
ghost use Rattle.c_typing_rules.specs.Rulings.{RuleGives};

use bk_containers::Box;
use c_tree::{StepOp, UnaryOp};
use c_typed_tree::{CType, StructDef, TExpr};
use c_typing_faults::Kind;
use c_typing_rules::trees::unary;
use c_typing_rules::types::{is_integer, is_scalar, is_struct, points_to_object};
use c_typing_rules::{LvalueKind, Refusal, TypedExpression, refuse, value};
use std::alloc::{AllocError, Global};

/// The type that a pointer type points to.
#[tactic(auto, unfolding(crate::specs::model::Opens::opens))]
fn target(alloc: Global, ty: &CType) -> Result<Option<CType>, AllocError>
    ensures { IfOk result (λ r. r ≡ spec.target ty.now) }
{
    match ty {
        CType::Void => Ok(None),
        CType::Int { .. } => Ok(None),
        CType::Pointer(target) => Ok(Some(target.copy(alloc)?)),
        CType::Array(_, _) => Ok(None),
        CType::Struct(_) => Ok(None),
    }
}

/// The type of what a pointer to an object leads to.
fn object_of(alloc: Global, structs: &[StructDef], ty: &CType) -> Result<Option<CType>, AllocError>
    ensures { IfOk result (λ r. r ≡ spec.object_of structs.now ty.now) }
{
    if points_to_object(structs, ty) {
        return target(alloc, ty);
    }
    Ok(None)
}

pub(crate) fn led_to(at: u32, ty: CType, tree: Box<TExpr>) -> TypedExpression
    ensures { result ≡ spec.pointed_place at ty tree }
{
    TypedExpression {
        at,
        tree,
        ty,
        place: LvalueKind::Elsewhere,
    }
}

fn pointee(
    alloc: Global,
    at: u32,
    of: CType,
    operand: Box<TExpr>,
) -> Result<TypedExpression, AllocError>
    ensures { IfOk result (λ r. r ≡ spec.pointee at of operand) }
{
    let ty = of.copy(alloc)?;
    let tree = Box::new(
        alloc,
        TExpr::Unary {
            ty,
            op: UnaryOp::Dereference,
            operand,
        },
    )?;
    Ok(led_to(at, of, tree))
}

/// `*` in front of an operand.
pub fn dereference(
    alloc: Global,
    structs: &[StructDef],
    at: u32,
    a: TypedExpression,
) -> Result<TypedExpression, Refusal>
    ensures { RuleGives (spec.dereference structs.now at a) result }
{
    match object_of(alloc, structs, &a.ty)? {
        None => Err(refuse(at, Kind::BadOperand)),
        Some(ty) => Ok(pointee(alloc, at, ty, a.tree)?),
    }
}

fn element_at(
    alloc: Global,
    at: u32,
    of: CType,
    left: Box<TExpr>,
    right: Box<TExpr>,
) -> Result<TypedExpression, AllocError>
    ensures { IfOk result (λ r. r ≡ spec.element_at at of left right) }
{
    let ty = of.copy(alloc)?;
    let tree = Box::new(alloc, TExpr::Index { ty, left, right })?;
    Ok(led_to(at, of, tree))
}

/// An element of this type.
fn element_by_index(
    alloc: Global,
    at: u32,
    a: TypedExpression,
    b: TypedExpression,
    is_index: bool,
    object: Option<CType>,
) -> Result<TypedExpression, Refusal>
    ensures { RuleGives (spec.element_by_index at a b is_index object) result }
{
    match object {
        None => Err(refuse(at, Kind::BadOperand)),
        Some(ty) => {
            if is_index {
                return Ok(element_at(alloc, at, ty, a.tree, b.tree)?);
            }
            Err(refuse(at, Kind::BadOperand))
        }
    }
}

/// `a[b]`.
pub fn index(
    alloc: Global,
    structs: &[StructDef],
    at: u32,
    a: TypedExpression,
    b: TypedExpression,
) -> Result<TypedExpression, Refusal>
    ensures { RuleGives (spec.index structs.now at a b) result }
{
    if points_to_object(structs, &a.ty) {
        let is_index = is_integer(&b.ty);
        let object = object_of(alloc, structs, &a.ty)?;
        return element_by_index(alloc, at, a, b, is_index, object);
    }
    let is_index = is_integer(&a.ty);
    let object = object_of(alloc, structs, &b.ty)?;
    element_by_index(alloc, at, a, b, is_index, object)
}

pub(crate) fn is_somewhere(place: LvalueKind) -> bool
    ensures { result ≡ spec.is_somewhere place }
{
    match place {
        LvalueKind::Nowhere => false,
        LvalueKind::Local(_) => true,
        LvalueKind::Global(_) => true,
        LvalueKind::Elsewhere => true,
    }
}

/// `&`.
pub fn address(alloc: Global, at: u32, a: TypedExpression) -> Result<TypedExpression, Refusal>
    ensures { RuleGives (spec.address at a) result }
{
    if is_somewhere(a.place) {
        let ty = CType::Pointer(Box::new(alloc, a.ty)?);
        return Ok(unary(alloc, at, ty, UnaryOp::Address, a.tree)?);
    }
    Err(refuse(a.at, Kind::NotAssignable))
}

/// Whether an expression is a place that an assignment can change.
pub fn is_assignable(a: &TypedExpression) -> bool
    ensures { result ≡ spec.is_assignable a.now }
{
    if is_somewhere(a.place) {
        return is_scalar(&a.ty) || is_struct(&a.ty);
    }
    false
}

fn is_steppable(structs: &[StructDef], a: &TypedExpression) -> bool
    ensures { result ≡ spec.is_steppable structs.now a.now }
{
    is_integer(&a.ty) || points_to_object(structs, &a.ty)
}

/// `++` or `--` in front of an operand.
pub fn step_before(
    alloc: Global,
    structs: &[StructDef],
    at: u32,
    op: UnaryOp,
    a: TypedExpression,
) -> Result<TypedExpression, Refusal>
    ensures { RuleGives (spec.step_before structs.now at op a) result }
{
    if is_assignable(&a) {
        if is_steppable(structs, &a) {
            return Ok(unary(alloc, at, a.ty, op, a.tree)?);
        }
        return Err(refuse(at, Kind::BadOperand));
    }
    Err(refuse(a.at, Kind::NotAssignable))
}

fn postfix(
    alloc: Global,
    at: u32,
    of: CType,
    op: StepOp,
    operand: Box<TExpr>,
) -> Result<TypedExpression, AllocError>
    ensures { IfOk result (λ r. r ≡ spec.postfix_rvalue at of op operand) }
{
    let ty = of.copy(alloc)?;
    let tree = Box::new(alloc, TExpr::Postfix { ty, op, operand })?;
    Ok(value(at, of, tree))
}

/// `++` or `--` behind an operand.
pub fn step_behind(
    alloc: Global,
    structs: &[StructDef],
    at: u32,
    op: StepOp,
    a: TypedExpression,
) -> Result<TypedExpression, Refusal>
    ensures { RuleGives (spec.step_behind structs.now at op a) result }
{
    if is_assignable(&a) {
        if is_steppable(structs, &a) {
            return Ok(postfix(alloc, at, a.ty, op, a.tree)?);
        }
        return Err(refuse(at, Kind::BadOperand));
    }
    Err(refuse(a.at, Kind::NotAssignable))
}
