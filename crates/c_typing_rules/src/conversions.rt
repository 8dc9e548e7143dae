//! Conversions of values, and the operators at which pointers meet (C99 6.3.2, 6.5.4, 6.5.9, 6.5.15, 6.5.16.1).
//!
//! Of each operand that may be a null pointer constant it is given whether it is one.

ghost use Rattle.std.specs.Prelude.{◌≡◌, IfOk};
ghost use Rattle.c_typing_rules.specs.Conversions as spec;
ghost use Rattle.c_typing_rules.specs.Rulings.{RuleGives};

use crate::refusal::{Refusal, refuse};
use crate::trees::{binary_in, convert, convert_tree};
use crate::typed::{TypedExpression, value};
use crate::types::{integer_type, is_integer, is_pointer, is_pointer_to_void, is_same, is_void};
use bk_arithmetic::integer_type::IntegerType;
use bk_containers::Box;
use c_tree::BinaryOp;
use c_typed_tree::layout::integer_of;
use c_typed_tree::{CType, TExpr};
use c_typing_faults::Kind;
use std::alloc::{AllocError, Global};

/// The type of the elements of an array.
#[tactic(auto, unfolding(crate::specs::model::Opens::opens))]
fn element(alloc: Global, ty: &CType) -> Result<Option<CType>, AllocError>
    ensures { IfOk result (λ r. r ≡ spec.element ty.now) }
{
    match ty {
        CType::Void => Ok(None),
        CType::Int { .. } => Ok(None),
        CType::Pointer(_) => Ok(None),
        CType::Array(element, _) => Ok(Some(element.copy(alloc)?)),
        CType::Struct(_) => Ok(None),
    }
}

/// An operand whose value is wanted: an array becomes a pointer to its first element.
pub fn decay(alloc: Global, a: TypedExpression) -> Result<TypedExpression, AllocError>
    ensures { IfOk result (λ r. r ≡ spec.decay a) }
{
    match element(alloc, &a.ty)? {
        None => Ok(a),
        Some(element) => {
            let ty = CType::Pointer(Box::new(alloc, element)?);
            let tree = convert(alloc, &ty, a.tree)?;
            Ok(value(a.at, ty, tree))
        }
    }
}

fn as_integer(alloc: Global, to: &CType, v: TypedExpression) -> Result<Box<TExpr>, Refusal>
    ensures { RuleGives (spec.as_integer to.now v) result }
{
    if is_integer(&v.ty) {
        return Ok(convert(alloc, to, v.tree)?);
    }
    Err(refuse(v.at, Kind::BadConversion))
}

fn is_taken_as_pointer(to: &CType, v: &TypedExpression, null: bool) -> bool
    ensures { result ≡ spec.is_taken_as_pointer to.now v.now null }
{
    if null {
        return true;
    }
    if is_pointer(&v.ty) {
        return is_pointer_to_void(to) || is_pointer_to_void(&v.ty);
    }
    false
}

fn as_pointer(
    alloc: Global,
    to: &CType,
    v: TypedExpression,
    null: bool,
) -> Result<Box<TExpr>, Refusal>
    ensures { RuleGives (spec.as_pointer to.now v null) result }
{
    if is_taken_as_pointer(to, &v, null) {
        return Ok(convert(alloc, to, v.tree)?);
    }
    Err(refuse(v.at, Kind::BadConversion))
}

/// A value where one of a type is wanted: an assigned one, an argument, an initialiser, the operand of `return`.
pub fn value_for_type(
    alloc: Global,
    to: &CType,
    v: TypedExpression,
    null: bool,
) -> Result<Box<TExpr>, Refusal>
    ensures { RuleGives (spec.value_for_type to.now v null) result }
{
    if is_same(to, &v.ty) {
        return Ok(v.tree);
    }
    if is_integer(to) {
        return as_integer(alloc, to, v);
    }
    if is_pointer(to) {
        return as_pointer(alloc, to, v, null);
    }
    Err(refuse(v.at, Kind::BadConversion))
}

fn is_castable(to: &CType, a: &TypedExpression, null: bool) -> bool
    ensures { result ≡ spec.is_castable to.now a.now null }
{
    if is_void(to) {
        return true;
    }
    if is_integer(to) {
        return is_integer(&a.ty);
    }
    if is_pointer(to) {
        return is_pointer(&a.ty) || null;
    }
    false
}

fn cast_tree(
    alloc: Global,
    at: u32,
    to: CType,
    operand: Box<TExpr>,
) -> Result<TypedExpression, AllocError>
    ensures { IfOk result (λ r. r ≡ spec.cast_value at to operand) }
{
    let ty = to.copy(alloc)?;
    let tree = Box::new(alloc, TExpr::Cast { ty, operand })?;
    Ok(value(at, to, tree))
}

/// A cast to a type.
pub fn cast(
    alloc: Global,
    at: u32,
    to: CType,
    a: TypedExpression,
    null: bool,
) -> Result<TypedExpression, Refusal>
    ensures { RuleGives (spec.cast_ruling at to a null) result }
{
    if is_castable(&to, &a, null) {
        return Ok(cast_tree(alloc, at, to, a.tree)?);
    }
    Err(refuse(at, Kind::BadConversion))
}

fn void_pointer(alloc: Global) -> Result<CType, AllocError>
    ensures { IfOk result (λ r. r ≡ spec.void_pointer) }
{
    Ok(CType::Pointer(Box::new(alloc, CType::Void)?))
}

fn pointers_meet(
    alloc: Global,
    a: &CType,
    b: &CType,
    null_left: bool,
) -> Result<Option<CType>, AllocError>
    ensures { IfOk result (λ r. r ≡ spec.pointers_meet a.now b.now null_left) }
{
    if null_left {
        return Ok(Some(b.copy(alloc)?));
    }
    let void_left = is_pointer_to_void(a);
    let void_right = is_pointer_to_void(b);
    if void_left {
        return Ok(Some(void_pointer(alloc)?));
    }
    if void_right {
        return Ok(Some(void_pointer(alloc)?));
    }
    Ok(None)
}

fn meet_of_pointer(
    alloc: Global,
    a: &CType,
    b: &CType,
    null_left: bool,
    null_right: bool,
) -> Result<Option<CType>, AllocError>
    ensures { IfOk result (λ r. r ≡ spec.meet_of_pointer a.now b.now null_left null_right) }
{
    if is_same(a, b) {
        return Ok(Some(a.copy(alloc)?));
    }
    if null_right {
        return Ok(Some(a.copy(alloc)?));
    }
    if is_pointer(b) {
        return pointers_meet(alloc, a, b, null_left);
    }
    Ok(None)
}

/// The type in which two operands meet of which one is a pointer.
fn meet(
    alloc: Global,
    a: &CType,
    b: &CType,
    null_left: bool,
    null_right: bool,
) -> Result<Option<CType>, AllocError>
    ensures { IfOk result (λ r. r ≡ spec.meet a.now b.now null_left null_right) }
{
    if is_pointer(a) {
        return meet_of_pointer(alloc, a, b, null_left, null_right);
    }
    if is_pointer(b) {
        if null_left {
            return Ok(Some(b.copy(alloc)?));
        }
        return Ok(None);
    }
    Ok(None)
}

/// `==` or `!=` where one operand is no integer.
fn equal_pointers(
    alloc: Global,
    at: u32,
    op: BinaryOp,
    a: TypedExpression,
    b: TypedExpression,
    met: Option<CType>,
) -> Result<TypedExpression, Refusal>
    ensures { RuleGives (spec.equal_pointers at op a b met) result }
{
    match met {
        None => Err(refuse(at, Kind::BadOperand)),
        Some(to) => {
            let ty = integer_type(IntegerType::Int);
            Ok(binary_in(alloc, at, ty, op, &to, a, b)?)
        }
    }
}

/// `==` or `!=`.
pub fn equality(
    alloc: Global,
    at: u32,
    op: BinaryOp,
    a: TypedExpression,
    b: TypedExpression,
    null_left: bool,
    null_right: bool,
) -> Result<TypedExpression, Refusal>
    ensures { RuleGives (spec.equality_test at op a b null_left null_right) result }
{
    match integer_of(&a.ty) {
        None => {
            let met = meet(alloc, &a.ty, &b.ty, null_left, null_right)?;
            equal_pointers(alloc, at, op, a, b, met)
        }
        Some(s) => match integer_of(&b.ty) {
            None => {
                let met = meet(alloc, &a.ty, &b.ty, null_left, null_right)?;
                equal_pointers(alloc, at, op, a, b, met)
            }
            Some(t) => {
                let ty = integer_type(IntegerType::Int);
                let to = integer_type(s.common(t));
                Ok(binary_in(alloc, at, ty, op, &to, a, b)?)
            }
        },
    }
}

/// A choice whose arms are both converted to a type.
fn choice_in(
    alloc: Global,
    at: u32,
    condition: Box<TExpr>,
    of: CType,
    a: TypedExpression,
    b: TypedExpression,
) -> Result<TypedExpression, AllocError>
    ensures { IfOk result (λ r. r ≡ spec.choice_in at condition of a b) }
{
    let holds = convert_tree(alloc, &of, a)?;
    let fails = convert_tree(alloc, &of, b)?;
    let ty = of.copy(alloc)?;
    let tree = Box::new(
        alloc,
        TExpr::Conditional {
            ty,
            condition,
            holds,
            fails,
        },
    )?;
    Ok(value(at, of, tree))
}

fn choice_met(
    alloc: Global,
    at: u32,
    condition: Box<TExpr>,
    a: TypedExpression,
    b: TypedExpression,
    met: Option<CType>,
) -> Result<TypedExpression, Refusal>
    ensures { RuleGives (spec.choice_met at condition a b met) result }
{
    match met {
        None => Err(refuse(at, Kind::BadOperand)),
        Some(ty) => Ok(choice_in(alloc, at, condition, ty, a, b)?),
    }
}

/// A choice of which one arm is no integer.
fn choice_apart(
    alloc: Global,
    at: u32,
    condition: Box<TExpr>,
    a: TypedExpression,
    b: TypedExpression,
    null_left: bool,
    null_right: bool,
) -> Result<TypedExpression, Refusal>
    ensures { RuleGives (spec.choice_apart at condition a b null_left null_right) result }
{
    if is_same(&a.ty, &b.ty) {
        let ty = a.ty.copy(alloc)?;
        return Ok(choice_in(alloc, at, condition, ty, a, b)?);
    }
    let met = meet(alloc, &a.ty, &b.ty, null_left, null_right)?;
    choice_met(alloc, at, condition, a, b, met)
}

/// `?:`, with its condition.
pub fn choice(
    alloc: Global,
    at: u32,
    condition: Box<TExpr>,
    a: TypedExpression,
    b: TypedExpression,
    null_left: bool,
    null_right: bool,
) -> Result<TypedExpression, Refusal>
    ensures { RuleGives (spec.choice at condition a b null_left null_right) result }
{
    match integer_of(&a.ty) {
        None => choice_apart(alloc, at, condition, a, b, null_left, null_right),
        Some(s) => match integer_of(&b.ty) {
            None => choice_apart(alloc, at, condition, a, b, null_left, null_right),
            Some(t) => {
                let ty = integer_type(s.common(t));
                Ok(choice_in(alloc, at, condition, ty, a, b)?)
            }
        },
    }
}
