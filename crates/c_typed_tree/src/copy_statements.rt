//! Equal statements.

ghost use Rattle.std.specs.Prelude.{◌≡◌, IfOk};
ghost use Rattle.c_typed_tree.specs.declared.statements.TStmt as t;

use crate::copy::{copy_in_box, copy_optional};
use crate::{TExpr, TFirst, TLocal, TSection, TStmt};
use bk_containers::{Box, Seq};
use std::alloc::{AllocError, Global};

/// An equal declaration of a local.
fn copy_local(alloc: Global, local: &TLocal) -> Result<TLocal, AllocError>
    ensures { IfOk result (λ r. r ≡ local.now) }
{
    let init = copy_optional(alloc, &local.init)?;
    Ok(TLocal {
        number: local.number,
        init,
    })
}

fn copy_locals(alloc: Global, list: &Seq<TLocal>) -> Result<Seq<TLocal>, AllocError>
    ensures { IfOk result (λ r. r ≡ list.now) }
{
    let mut copies = Seq::new(alloc);
    for local in list.as_slice() {
        copies.push(copy_local(alloc, local)?)?;
    }
    Ok(copies)
}

/// An equal first part of a `for`.
fn copy_first(alloc: Global, first: &TFirst) -> Result<TFirst, AllocError>
    ensures { IfOk result (λ r. r ≡ first.now) }
{
    match first {
        TFirst::Nothing => Ok(TFirst::Nothing),
        TFirst::Value(value) => Ok(TFirst::Value(copy_in_box(alloc, value)?)),
        TFirst::Locals(list) => Ok(TFirst::Locals(copy_locals(alloc, list)?)),
    }
}

/// A `for` with a body and equal other parts.
fn for_around(
    alloc: Global,
    first: &TFirst,
    condition: &Option<Box<TExpr>>,
    step: &Option<Box<TExpr>>,
    body: Box<TStmt>,
) -> Result<TStmt, AllocError>
    ensures { IfOk result (λ r. r ≡ t.For first.now condition.now step.now body) }
{
    let condition = copy_optional(alloc, condition)?;
    let step = copy_optional(alloc, step)?;
    Ok(TStmt::For {
        first: Box::new(alloc, copy_first(alloc, first)?)?,
        condition,
        step,
        body,
    })
}

/// An equal statement. It fails only where memory is short.
#[cycle(statement)]
pub fn copy_stmt(alloc: Global, statement: &TStmt) -> Result<TStmt, AllocError>
    ensures { IfOk result (λ r. r ≡ statement.now) }
{
    match statement {
        TStmt::Block(statements) => Ok(TStmt::Block(copy_stmts(alloc, statements)?)),
        TStmt::If {
            condition,
            then,
            otherwise,
        } => {
            let then = copy_stmt_in_box(alloc, then)?;
            let otherwise = copy_else(alloc, otherwise)?;
            let condition = copy_in_box(alloc, condition)?;
            Ok(TStmt::If {
                condition,
                then,
                otherwise,
            })
        }
        TStmt::While { condition, body } => {
            let body = copy_stmt_in_box(alloc, body)?;
            let condition = copy_in_box(alloc, condition)?;
            Ok(TStmt::While { condition, body })
        }
        TStmt::Do { body, condition } => {
            let body = copy_stmt_in_box(alloc, body)?;
            let condition = copy_in_box(alloc, condition)?;
            Ok(TStmt::Do { body, condition })
        }
        TStmt::For {
            first,
            condition,
            step,
            body,
        } => for_around(
            alloc,
            first,
            condition,
            step,
            copy_stmt_in_box(alloc, body)?,
        ),
        TStmt::Switch { operand, sections } => {
            let sections = copy_sections(alloc, sections)?;
            let operand = copy_in_box(alloc, operand)?;
            Ok(TStmt::Switch { operand, sections })
        }
        TStmt::Break => Ok(TStmt::Break),
        TStmt::Continue => Ok(TStmt::Continue),
        TStmt::Return(value) => Ok(TStmt::Return(copy_optional(alloc, value)?)),
        TStmt::Expression(value) => Ok(TStmt::Expression(copy_in_box(alloc, value)?)),
        TStmt::Empty => Ok(TStmt::Empty),
        TStmt::Local(local) => Ok(TStmt::Local(copy_local(alloc, local)?)),
    }
}

/// An equal statement in a box.
#[cycle(statement)]
fn copy_stmt_in_box(alloc: Global, statement: &TStmt) -> Result<Box<TStmt>, AllocError>
    ensures { IfOk result (λ r. r ≡ statement.now) }
{
    Box::new(alloc, copy_stmt(alloc, statement)?)
}

#[cycle(statement)]
fn copy_stmts(alloc: Global, list: &Seq<TStmt>) -> Result<Seq<TStmt>, AllocError>
    ensures { IfOk result (λ r. r ≡ list.now) }
{
    let mut copies = Seq::new(alloc);
    for statement in list.as_slice() {
        copies.push(copy_stmt(alloc, statement)?)?;
    }
    Ok(copies)
}

#[cycle(statement)]
fn copy_else(
    alloc: Global,
    otherwise: &Option<Box<TStmt>>,
) -> Result<Option<Box<TStmt>>, AllocError>
    ensures { IfOk result (λ r. r ≡ otherwise.now) }
{
    match otherwise {
        None => Ok(None),
        Some(statement) => Ok(Some(copy_stmt_in_box(alloc, statement)?)),
    }
}

#[cycle(statement)]
fn copy_sections(alloc: Global, list: &Seq<TSection>) -> Result<Seq<TSection>, AllocError>
    ensures { IfOk result (λ r. r ≡ list.now) }
{
    let mut copies = Seq::new(alloc);
    for section in list.as_slice() {
        let statements = copy_stmts(alloc, &section.statements)?;
        copies.push(TSection {
            label: section.label,
            statements,
        })?;
    }
    Ok(copies)
}
