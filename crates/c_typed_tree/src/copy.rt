//! Equal types and expressions.

ghost use Rattle.std.specs.Prelude.{◌≡◌, IfOk};

use crate::{CType, TExpr, make};
use bk_containers::{Box, Seq};
use std::alloc::{AllocError, Global};

impl CType {
    /// An equal type. It fails only where memory is short.
    pub fn copy(&self, alloc: Global) -> Result<CType, AllocError>
        ensures { IfOk result (λ t. t ≡ self.now) }
    {
        match self {
            CType::Void => Ok(CType::Void),
            CType::Int { bytes, signed } => Ok(CType::Int {
                bytes: *bytes,
                signed: *signed,
            }),
            CType::Pointer(target) => Ok(CType::Pointer(Box::new(alloc, target.copy(alloc)?)?)),
            CType::Array(element, length) => Ok(CType::Array(
                Box::new(alloc, element.copy(alloc)?)?,
                *length,
            )),
            CType::Struct(number) => Ok(CType::Struct(*number)),
        }
    }
}

/// An equal expression. It fails only where memory is short.
#[cycle(copy)]
pub fn copy_expr(alloc: Global, e: &TExpr) -> Result<TExpr, AllocError>
    ensures { IfOk result (λ r. r ≡ e.now) }
{
    match e {
        TExpr::Number { ty, value } => make::number(alloc, ty, *value),
        TExpr::Local { ty, number } => make::local(alloc, ty, *number),
        TExpr::Global { ty, number } => make::global(alloc, ty, *number),
        TExpr::Call {
            ty,
            callee,
            arguments,
        } => make::call(alloc, ty, *callee, copy_exprs(alloc, arguments)?),
        TExpr::Unary { ty, op, operand } => make::unary(
            alloc,
            ty,
            *op,
            copy_in_box(alloc, operand)?,
        ),
        TExpr::Binary {
            ty,
            op,
            left,
            right,
        } => {
            let left = copy_in_box(alloc, left)?;
            make::binary(alloc, ty, *op, left, copy_in_box(alloc, right)?)
        }
        TExpr::Assign {
            ty,
            op,
            left,
            right,
        } => {
            let left = copy_in_box(alloc, left)?;
            make::assign(alloc, ty, *op, left, copy_in_box(alloc, right)?)
        }
        TExpr::Conditional {
            ty,
            condition,
            holds,
            fails,
        } => {
            let condition = copy_in_box(alloc, condition)?;
            let holds = copy_in_box(alloc, holds)?;
            make::conditional(alloc, ty, condition, holds, copy_in_box(alloc, fails)?)
        }
        TExpr::Cast { ty, operand } => make::cast(alloc, ty, copy_in_box(alloc, operand)?),
        TExpr::Convert { ty, operand } => make::convert(alloc, ty, copy_in_box(alloc, operand)?),
        TExpr::Index { ty, left, right } => {
            let left = copy_in_box(alloc, left)?;
            make::index(alloc, ty, left, copy_in_box(alloc, right)?)
        }
        TExpr::Field {
            ty,
            operand,
            member,
        } => make::field(alloc, ty, copy_in_box(alloc, operand)?, *member),
        TExpr::Arrow {
            ty,
            operand,
            member,
        } => make::arrow(alloc, ty, copy_in_box(alloc, operand)?, *member),
        TExpr::Postfix { ty, op, operand } => make::postfix(
            alloc,
            ty,
            *op,
            copy_in_box(alloc, operand)?,
        ),
        TExpr::Comma { ty, operands } => make::comma(alloc, ty, copy_exprs(alloc, operands)?),
    }
}

/// An equal expression in a box.
#[cycle(copy)]
pub(crate) fn copy_in_box(alloc: Global, e: &TExpr) -> Result<Box<TExpr>, AllocError>
    ensures { IfOk result (λ r. r ≡ e.now) }
{
    Box::new(alloc, copy_expr(alloc, e)?)
}

#[cycle(copy)]
fn copy_exprs(alloc: Global, list: &Seq<TExpr>) -> Result<Seq<TExpr>, AllocError>
    ensures { IfOk result (λ r. r ≡ list.now) }
{
    let mut copies = Seq::new(alloc);
    for e in list.as_slice() {
        copies.push(copy_expr(alloc, e)?)?;
    }
    Ok(copies)
}

/// An equal expression, where there is one.
pub(crate) fn copy_optional(
    alloc: Global,
    e: &Option<Box<TExpr>>,
) -> Result<Option<Box<TExpr>>, AllocError>
    ensures { IfOk result (λ r. r ≡ e.now) }
{
    match e {
        None => Ok(None),
        Some(e) => Ok(Some(copy_in_box(alloc, e)?)),
    }
}
