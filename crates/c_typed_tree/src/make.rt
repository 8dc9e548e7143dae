//! Expressions from their parts, with a copy of their type. What is handed in is let go where memory is short.

ghost use Rattle.std.specs.Prelude.{◌≡◌, IfOk};
ghost use Rattle.c_typed_tree.specs.declared.expressions.TExpr as t;

use crate::{CType, Callee, TExpr};
use bk_containers::{Box, Seq};
use c_tree::{AssignOp, BinaryOp, StepOp, UnaryOp};
use std::alloc::{AllocError, Global};

/// An integer.
pub(crate) fn number(alloc: Global, ty: &CType, value: u64) -> Result<TExpr, AllocError>
    ensures { IfOk result (λ e. e ≡ t.Number ty.now value) }
{
    Ok(TExpr::Number {
        ty: ty.copy(alloc)?,
        value,
    })
}

/// A local.
pub(crate) fn local(alloc: Global, ty: &CType, number: u32) -> Result<TExpr, AllocError>
    ensures { IfOk result (λ e. e ≡ t.Local ty.now number) }
{
    Ok(TExpr::Local {
        ty: ty.copy(alloc)?,
        number,
    })
}

/// A global.
pub(crate) fn global(alloc: Global, ty: &CType, number: u32) -> Result<TExpr, AllocError>
    ensures { IfOk result (λ e. e ≡ t.Global ty.now number) }
{
    Ok(TExpr::Global {
        ty: ty.copy(alloc)?,
        number,
    })
}

/// A call.
pub(crate) fn call(
    alloc: Global,
    ty: &CType,
    callee: Callee,
    arguments: Seq<TExpr>,
) -> Result<TExpr, AllocError>
    ensures { IfOk result (λ e. e ≡ t.Call ty.now callee arguments) }
{
    Ok(TExpr::Call {
        ty: ty.copy(alloc)?,
        callee,
        arguments,
    })
}

/// An operator in front of its operand.
pub(crate) fn unary(
    alloc: Global,
    ty: &CType,
    op: UnaryOp,
    operand: Box<TExpr>,
) -> Result<TExpr, AllocError>
    ensures { IfOk result (λ e. e ≡ t.Unary ty.now op operand) }
{
    Ok(TExpr::Unary {
        ty: ty.copy(alloc)?,
        op,
        operand,
    })
}

/// An operator between its operands.
pub(crate) fn binary(
    alloc: Global,
    ty: &CType,
    op: BinaryOp,
    left: Box<TExpr>,
    right: Box<TExpr>,
) -> Result<TExpr, AllocError>
    ensures { IfOk result (λ e. e ≡ t.Binary ty.now op left right) }
{
    Ok(TExpr::Binary {
        ty: ty.copy(alloc)?,
        op,
        left,
        right,
    })
}

/// An assignment.
pub(crate) fn assign(
    alloc: Global,
    ty: &CType,
    op: AssignOp,
    left: Box<TExpr>,
    right: Box<TExpr>,
) -> Result<TExpr, AllocError>
    ensures { IfOk result (λ e. e ≡ t.Assign ty.now op left right) }
{
    Ok(TExpr::Assign {
        ty: ty.copy(alloc)?,
        op,
        left,
        right,
    })
}

/// A choice.
pub(crate) fn conditional(
    alloc: Global,
    ty: &CType,
    condition: Box<TExpr>,
    holds: Box<TExpr>,
    fails: Box<TExpr>,
) -> Result<TExpr, AllocError>
    ensures { IfOk result (λ e. e ≡ t.Conditional ty.now condition holds fails) }
{
    Ok(TExpr::Conditional {
        ty: ty.copy(alloc)?,
        condition,
        holds,
        fails,
    })
}

/// A cast.
pub(crate) fn cast(alloc: Global, ty: &CType, operand: Box<TExpr>) -> Result<TExpr, AllocError>
    ensures { IfOk result (λ e. e ≡ t.Cast ty.now operand) }
{
    Ok(TExpr::Cast {
        ty: ty.copy(alloc)?,
        operand,
    })
}

/// A conversion that the text does not spell.
pub(crate) fn convert(alloc: Global, ty: &CType, operand: Box<TExpr>) -> Result<TExpr, AllocError>
    ensures { IfOk result (λ e. e ≡ t.Convert ty.now operand) }
{
    Ok(TExpr::Convert {
        ty: ty.copy(alloc)?,
        operand,
    })
}

/// An element.
pub(crate) fn index(
    alloc: Global,
    ty: &CType,
    left: Box<TExpr>,
    right: Box<TExpr>,
) -> Result<TExpr, AllocError>
    ensures { IfOk result (λ e. e ≡ t.Index ty.now left right) }
{
    Ok(TExpr::Index {
        ty: ty.copy(alloc)?,
        left,
        right,
    })
}

/// A member of a struct.
pub(crate) fn field(
    alloc: Global,
    ty: &CType,
    operand: Box<TExpr>,
    member: u32,
) -> Result<TExpr, AllocError>
    ensures { IfOk result (λ e. e ≡ t.Field ty.now operand member) }
{
    Ok(TExpr::Field {
        ty: ty.copy(alloc)?,
        operand,
        member,
    })
}

/// A member of a struct behind a pointer.
pub(crate) fn arrow(
    alloc: Global,
    ty: &CType,
    operand: Box<TExpr>,
    member: u32,
) -> Result<TExpr, AllocError>
    ensures { IfOk result (λ e. e ≡ t.Arrow ty.now operand member) }
{
    Ok(TExpr::Arrow {
        ty: ty.copy(alloc)?,
        operand,
        member,
    })
}

/// A step behind its operand.
pub(crate) fn postfix(
    alloc: Global,
    ty: &CType,
    op: StepOp,
    operand: Box<TExpr>,
) -> Result<TExpr, AllocError>
    ensures { IfOk result (λ e. e ≡ t.Postfix ty.now op operand) }
{
    Ok(TExpr::Postfix {
        ty: ty.copy(alloc)?,
        op,
        operand,
    })
}

/// Operands of commas.
pub(crate) fn comma(alloc: Global, ty: &CType, operands: Seq<TExpr>) -> Result<TExpr, AllocError>
    ensures { IfOk result (λ e. e ≡ t.Comma ty.now operands) }
{
    Ok(TExpr::Comma {
        ty: ty.copy(alloc)?,
        operands,
    })
}
