//! Typed statements, as the rows write them: a line each, with its parts below it, two blanks to the right.

use crate::expressions::put_expr;
use crate::types::{put, put_number, put_value};
use bk_containers::{Box, Seq};
use c_typed_tree::{CType, TExpr, TFirst, TLabel, TLocal, TSection, TStmt};
use std::alloc::{AllocError, Global};

/// Puts the begin of a line.
pub fn put_indent(out: &mut Vec<u8>, level: usize) -> Result<(), AllocError> {
    for _level in 0..level {
        put(out, "  ")?;
    }
    Ok(())
}

/// Puts a line with a word alone.
fn put_line(out: &mut Vec<u8>, level: usize, word: &str) -> Result<(), AllocError> {
    put_indent(out, level)?;
    put(out, word)?;
    put(out, "\n")
}

/// Puts a line with a word and an expression.
fn put_part(
    alloc: Global,
    out: &mut Vec<u8>,
    level: usize,
    word: &str,
    e: &TExpr,
) -> Result<(), AllocError> {
    put_indent(out, level)?;
    put(out, word)?;
    put(out, " ")?;
    put_expr(alloc, out, e)?;
    put(out, "\n")
}

/// Puts a line with a word, and an expression if there is one, else `none`.
fn put_optional(
    alloc: Global,
    out: &mut Vec<u8>,
    level: usize,
    word: &str,
    e: &Option<Box<TExpr>>,
) -> Result<(), AllocError> {
    match e {
        None => {
            put_indent(out, level)?;
            put(out, word)?;
            put(out, " none\n")
        }
        Some(e) => put_part(alloc, out, level, word, e),
    }
}

/// Puts the declaration of a local.
fn put_local(
    alloc: Global,
    out: &mut Vec<u8>,
    level: usize,
    local: &TLocal,
) -> Result<(), AllocError> {
    put_indent(out, level)?;
    put(out, "local ")?;
    put_number(alloc, out, u64::from(local.number))?;
    match &local.init {
        None => {}
        Some(e) => {
            put(out, " = ")?;
            put_expr(alloc, out, e)?;
        }
    }
    put(out, "\n")
}

/// Puts the first part of a `for`.
fn put_first(
    alloc: Global,
    out: &mut Vec<u8>,
    level: usize,
    first: &TFirst,
) -> Result<(), AllocError> {
    match first {
        TFirst::Nothing => put_line(out, level, "first none"),
        TFirst::Value(e) => put_part(alloc, out, level, "first", e),
        TFirst::Locals(list) => {
            for local in list.as_slice() {
                put_local(alloc, out, level, local)?;
            }
            Ok(())
        }
    }
}

/// Puts the line of a label, whose value has a type.
fn put_label(
    alloc: Global,
    out: &mut Vec<u8>,
    level: usize,
    ty: &CType,
    label: TLabel,
) -> Result<(), AllocError> {
    match label {
        TLabel::Case(word) => {
            put_indent(out, level)?;
            put(out, "case ")?;
            put_value(alloc, out, ty, word)?;
            put(out, "\n")
        }
        TLabel::Default => put_line(out, level, "default"),
    }
}

/// Puts statements.
#[cycle(print)]
fn put_stmts(
    alloc: Global,
    out: &mut Vec<u8>,
    level: usize,
    list: &Seq<TStmt>,
) -> Result<(), AllocError> {
    for statement in list.as_slice() {
        put_stmt(alloc, out, level, statement)?;
    }
    Ok(())
}

/// Puts the sections of a `switch`.
#[cycle(print)]
fn put_sections(
    alloc: Global,
    out: &mut Vec<u8>,
    level: usize,
    list: &Seq<TSection>,
    ty: &CType,
) -> Result<(), AllocError> {
    let below = level.saturating_add(1);
    for section in list.as_slice() {
        put_label(alloc, out, level, ty, section.label)?;
        put_stmts(alloc, out, below, &section.statements)?;
    }
    Ok(())
}

/// Puts what stands behind `else`, if there is such a thing.
#[cycle(print)]
fn put_else(
    alloc: Global,
    out: &mut Vec<u8>,
    level: usize,
    otherwise: &Option<Box<TStmt>>,
) -> Result<(), AllocError> {
    match otherwise {
        None => Ok(()),
        Some(statement) => {
            put_line(out, level, "else")?;
            put_stmt(alloc, out, level.saturating_add(1), statement)
        }
    }
}

/// Puts a statement.
#[cycle(print)]
pub fn put_stmt(
    alloc: Global,
    out: &mut Vec<u8>,
    level: usize,
    statement: &TStmt,
) -> Result<(), AllocError> {
    let below = level.saturating_add(1);
    match statement {
        TStmt::Block(list) => {
            put_line(out, level, "block")?;
            put_stmts(alloc, out, below, list)
        }
        TStmt::If {
            condition,
            then,
            otherwise,
        } => {
            put_part(alloc, out, level, "if", condition)?;
            put_stmt(alloc, out, below, then)?;
            put_else(alloc, out, level, otherwise)
        }
        TStmt::While { condition, body } => {
            put_part(alloc, out, level, "while", condition)?;
            put_stmt(alloc, out, below, body)
        }
        TStmt::Do { body, condition } => {
            put_line(out, level, "do")?;
            put_stmt(alloc, out, below, body)?;
            put_part(alloc, out, level, "until-not", condition)
        }
        TStmt::For {
            first,
            condition,
            step,
            body,
        } => {
            put_line(out, level, "for")?;
            put_first(alloc, out, below, first)?;
            put_optional(alloc, out, below, "test", condition)?;
            put_optional(alloc, out, below, "step", step)?;
            put_stmt(alloc, out, below, body)
        }
        TStmt::Switch { operand, sections } => {
            put_part(alloc, out, level, "switch", operand)?;
            put_sections(alloc, out, below, sections, operand.ty())
        }
        TStmt::Break => put_line(out, level, "break"),
        TStmt::Continue => put_line(out, level, "continue"),
        TStmt::Return(value) => put_optional(alloc, out, level, "return", value),
        TStmt::Expression(e) => put_part(alloc, out, level, "expression", e),
        TStmt::Empty => put_line(out, level, "empty"),
        TStmt::Local(local) => put_local(alloc, out, level, local),
    }
}
