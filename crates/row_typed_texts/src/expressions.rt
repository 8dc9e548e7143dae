//! Typed expressions, as the rows write them: the type, a colon, and what the node is; where it has operands, these
//! stand behind it, and all in brackets.

use crate::types::{put, put_number, put_type, put_value};
use crate::words::{assign_word, binary_word, builtin_word, step_word, unary_word};
use bk_containers::Seq;
use c_typed_tree::{CType, Callee, TExpr};
use std::alloc::{AllocError, Global};

/// Puts the begin of a node: its type and a word.
fn put_head(
    alloc: Global,
    out: &mut Vec<u8>,
    bracket: &str,
    ty: &CType,
    word: &str,
) -> Result<(), AllocError> {
    put(out, bracket)?;
    put_type(alloc, out, ty)?;
    put(out, ":")?;
    put(out, word)
}

/// Puts a node without operands that has a number.
fn put_numbered(
    alloc: Global,
    out: &mut Vec<u8>,
    ty: &CType,
    word: &str,
    number: u32,
) -> Result<(), AllocError> {
    put_head(alloc, out, "", ty, word)?;
    put_number(alloc, out, u64::from(number))
}

/// Puts what a call calls.
fn put_callee(alloc: Global, out: &mut Vec<u8>, callee: Callee) -> Result<(), AllocError> {
    match callee {
        Callee::Function(number) => {
            put(out, "f")?;
            put_number(alloc, out, u64::from(number))
        }
        Callee::Builtin(builtin) => put(out, builtin_word(builtin)),
    }
}

/// Puts operands, each behind a blank.
#[cycle(print)]
fn put_operands(alloc: Global, out: &mut Vec<u8>, list: &Seq<TExpr>) -> Result<(), AllocError> {
    for e in list.as_slice() {
        put_operand(alloc, out, e)?;
    }
    Ok(())
}

/// Puts an operand behind a blank.
#[cycle(print)]
fn put_operand(alloc: Global, out: &mut Vec<u8>, e: &TExpr) -> Result<(), AllocError> {
    put(out, " ")?;
    put_expr(alloc, out, e)
}

/// Puts an expression.
#[cycle(print)]
pub fn put_expr(alloc: Global, out: &mut Vec<u8>, e: &TExpr) -> Result<(), AllocError> {
    match e {
        TExpr::Number { ty, value } => {
            put_head(alloc, out, "", ty, "")?;
            return put_value(alloc, out, ty, *value);
        }
        TExpr::Local { ty, number } => return put_numbered(alloc, out, ty, "l", *number),
        TExpr::Global { ty, number } => return put_numbered(alloc, out, ty, "g", *number),
        TExpr::Call {
            ty,
            callee,
            arguments,
        } => {
            put_head(alloc, out, "(", ty, "")?;
            put_callee(alloc, out, *callee)?;
            put_operands(alloc, out, arguments)?;
        }
        TExpr::Unary { ty, op, operand } => {
            put_head(alloc, out, "(", ty, unary_word(*op))?;
            put_operand(alloc, out, operand)?;
        }
        TExpr::Binary {
            ty,
            op,
            left,
            right,
        } => {
            put_head(alloc, out, "(", ty, binary_word(*op))?;
            put_operand(alloc, out, left)?;
            put_operand(alloc, out, right)?;
        }
        TExpr::Assign {
            ty,
            op,
            left,
            right,
        } => {
            put_head(alloc, out, "(", ty, assign_word(*op))?;
            put_operand(alloc, out, left)?;
            put_operand(alloc, out, right)?;
        }
        TExpr::Conditional {
            ty,
            condition,
            holds,
            fails,
        } => {
            put_head(alloc, out, "(", ty, "?")?;
            put_operand(alloc, out, condition)?;
            put_operand(alloc, out, holds)?;
            put_operand(alloc, out, fails)?;
        }
        TExpr::Cast { ty, operand } => {
            put_head(alloc, out, "(", ty, "cast")?;
            put_operand(alloc, out, operand)?;
        }
        TExpr::Convert { ty, operand } => {
            put_head(alloc, out, "(", ty, "convert")?;
            put_operand(alloc, out, operand)?;
        }
        TExpr::Index { ty, left, right } => {
            put_head(alloc, out, "(", ty, "index")?;
            put_operand(alloc, out, left)?;
            put_operand(alloc, out, right)?;
        }
        TExpr::Field {
            ty,
            operand,
            member,
        } => {
            put_head(alloc, out, "(", ty, ".")?;
            put_number(alloc, out, u64::from(*member))?;
            put_operand(alloc, out, operand)?;
        }
        TExpr::Arrow {
            ty,
            operand,
            member,
        } => {
            put_head(alloc, out, "(", ty, "->")?;
            put_number(alloc, out, u64::from(*member))?;
            put_operand(alloc, out, operand)?;
        }
        TExpr::Postfix { ty, op, operand } => {
            put_head(alloc, out, "(", ty, step_word(*op))?;
            put_operand(alloc, out, operand)?;
        }
        TExpr::Comma { ty, operands } => {
            put_head(alloc, out, "(", ty, ",")?;
            put_operands(alloc, out, operands)?;
        }
    }
    put(out, ")")
}
