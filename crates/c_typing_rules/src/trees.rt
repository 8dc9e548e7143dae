//! Values made of their parts, with a copy of their type.

ghost use Rattle.std.specs.Prelude.{◌≡◌, IfOk};
ghost use Rattle.c_typed_tree.specs.declared.expressions.TExpr as x;
ghost use Rattle.c_typing_rules.specs.Values as spec;

use crate::typed::{TypedExpression, value};
use crate::types::is_same;
use bk_containers::Box;
use c_tree::{BinaryOp, UnaryOp};
use c_typed_tree::{CType, TExpr};
use std::alloc::{AllocError, Global};

/// A conversion of a tree to a type.
pub fn convert(alloc: Global, to: &CType, operand: Box<TExpr>) -> Result<Box<TExpr>, AllocError>
    ensures { IfOk result (λ r. r ≡ x.Convert to.now operand) }
{
    let ty = to.copy(alloc)?;
    Box::new(alloc, TExpr::Convert { ty, operand })
}

/// The tree of a value, converted where its type is another.
pub fn convert_tree(alloc: Global, to: &CType, a: TypedExpression) -> Result<Box<TExpr>, AllocError>
    ensures { IfOk result (λ r. r ≡ spec.convert_tree to.now a) }
{
    if is_same(to, &a.ty) {
        return Ok(a.tree);
    }
    convert(alloc, to, a.tree)
}

/// An operator in front of an operand.
pub fn unary(
    alloc: Global,
    at: u32,
    of: CType,
    op: UnaryOp,
    operand: Box<TExpr>,
) -> Result<TypedExpression, AllocError>
    ensures { IfOk result (λ r. r ≡ spec.unary_rvalue at of op operand) }
{
    let ty = of.copy(alloc)?;
    let tree = Box::new(alloc, TExpr::Unary { ty, op, operand })?;
    Ok(value(at, of, tree))
}

/// An operator between two operands.
pub fn binary(
    alloc: Global,
    at: u32,
    of: CType,
    op: BinaryOp,
    left: Box<TExpr>,
    right: Box<TExpr>,
) -> Result<TypedExpression, AllocError>
    ensures { IfOk result (λ r. r ≡ spec.binary_rvalue at of op left right) }
{
    let ty = of.copy(alloc)?;
    let tree = Box::new(
        alloc,
        TExpr::Binary {
            ty,
            op,
            left,
            right,
        },
    )?;
    Ok(value(at, of, tree))
}

/// An operator between two operands that are both converted to a type.
pub fn binary_in(
    alloc: Global,
    at: u32,
    ty: CType,
    op: BinaryOp,
    to: &CType,
    a: TypedExpression,
    b: TypedExpression,
) -> Result<TypedExpression, AllocError>
    ensures { IfOk result (λ r. r ≡ spec.binary_in at ty op to.now a b) }
{
    let left = convert_tree(alloc, to, a)?;
    let right = convert_tree(alloc, to, b)?;
    binary(alloc, at, ty, op, left, right)
}
