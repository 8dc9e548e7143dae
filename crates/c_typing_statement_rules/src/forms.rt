//! Statements made of their parts, where those are without fault (C99 6.8).

ghost use Rattle.std.specs.Prelude.{◌≡◌, Some, IfOk};
ghost use Rattle.c_typing_statement_rules.specs.Forms as spec;

use bk_arithmetic::integer_type::IntegerType;
use bk_containers::{Box, Seq};
use c_typed_tree::{TExpr, TFirst, TLabel, TLocal, TSection, TStmt};
use c_typing_primary_rules::switches::SwitchValue;
use std::alloc::{AllocError, Global};

fn if_of(
    alloc: Global,
    condition: Box<TExpr>,
    then: TStmt,
    otherwise: Option<TStmt>,
) -> Result<TStmt, AllocError>
    ensures { IfOk result (λ r. Some r ≡ spec.if_else (Some condition) (Some then) (Some otherwise)) }
{
    let then = Box::new(alloc, then)?;
    match otherwise {
        None => Ok(TStmt::If {
            condition,
            then,
            otherwise: None,
        }),
        Some(otherwise) => {
            let otherwise = Box::new(alloc, otherwise)?;
            Ok(TStmt::If {
                condition,
                then,
                otherwise: Some(otherwise),
            })
        }
    }
}

/// An `if`.
pub fn if_else(
    alloc: Global,
    condition: Option<Box<TExpr>>,
    then: Option<TStmt>,
    otherwise: Option<Option<TStmt>>,
) -> Result<Option<TStmt>, AllocError>
    ensures { IfOk result (λ r. r ≡ spec.if_else condition then otherwise) }
{
    match condition {
        None => Ok(None),
        Some(condition) => match then {
            None => Ok(None),
            Some(then) => match otherwise {
                None => Ok(None),
                Some(otherwise) => Ok(Some(if_of(alloc, condition, then, otherwise)?)),
            },
        },
    }
}

/// A `while`.
pub fn while_loop(
    alloc: Global,
    condition: Option<Box<TExpr>>,
    body: Option<TStmt>,
) -> Result<Option<TStmt>, AllocError>
    ensures { IfOk result (λ r. r ≡ spec.while_loop condition body) }
{
    match condition {
        None => Ok(None),
        Some(condition) => match body {
            None => Ok(None),
            Some(body) => {
                let body = Box::new(alloc, body)?;
                Ok(Some(TStmt::While { condition, body }))
            }
        },
    }
}

/// A `do`.
pub fn do_loop(
    alloc: Global,
    body: Option<TStmt>,
    condition: Option<Box<TExpr>>,
) -> Result<Option<TStmt>, AllocError>
    ensures { IfOk result (λ r. r ≡ spec.do_loop body condition) }
{
    match body {
        None => Ok(None),
        Some(body) => match condition {
            None => Ok(None),
            Some(condition) => {
                let body = Box::new(alloc, body)?;
                Ok(Some(TStmt::Do { body, condition }))
            }
        },
    }
}

fn for_of(
    alloc: Global,
    first: TFirst,
    condition: Option<Box<TExpr>>,
    step: Option<Box<TExpr>>,
    body: Option<TStmt>,
) -> Result<Option<TStmt>, AllocError>
    ensures { IfOk result (λ r. r ≡ spec.for_loop (Some first) (Some condition) (Some step) body) }
{
    match body {
        None => Ok(None),
        Some(body) => {
            let body = Box::new(alloc, body)?;
            let first = Box::new(alloc, first)?;
            Ok(Some(TStmt::For {
                first,
                condition,
                step,
                body,
            }))
        }
    }
}

/// A `for`, of which a condition and a step may be missing.
pub fn for_loop(
    alloc: Global,
    first: Option<TFirst>,
    condition: Option<Option<Box<TExpr>>>,
    step: Option<Option<Box<TExpr>>>,
    body: Option<TStmt>,
) -> Result<Option<TStmt>, AllocError>
    ensures { IfOk result (λ r. r ≡ spec.for_loop first condition step body) }
{
    match first {
        None => Ok(None),
        Some(first) => match condition {
            None => Ok(None),
            Some(condition) => match step {
                None => Ok(None),
                Some(step) => for_of(alloc, first, condition, step, body),
            },
        },
    }
}

/// The promoted type of the operand of a `switch`.
pub fn switch_type(operand: &Option<SwitchValue>) -> Option<IntegerType>
    ensures { result ≡ spec.switch_type operand.now }
{
    match operand {
        None => None,
        Some(operand) => Some(operand.ty),
    }
}

/// A `switch`.
pub fn switch(operand: Option<SwitchValue>, sections: Option<Seq<TSection>>) -> Option<TStmt>
    ensures { result ≡ spec.switch operand sections }
{
    match operand {
        None => None,
        Some(operand) => match sections {
            None => None,
            Some(sections) => Some(TStmt::Switch {
                operand: operand.tree,
                sections,
            }),
        },
    }
}

/// The statements under a label.
pub fn section_under(label: Option<TLabel>, statements: Option<Seq<TStmt>>) -> Option<TSection>
    ensures { result ≡ spec.section_under label statements }
{
    match label {
        None => None,
        Some(label) => match statements {
            None => None,
            Some(statements) => Some(TSection { label, statements }),
        },
    }
}

/// A block.
pub fn block(list: Option<Seq<TStmt>>) -> Option<TStmt>
    ensures { result ≡ spec.block list }
{
    match list {
        None => None,
        Some(list) => Some(TStmt::Block(list)),
    }
}

/// An expression statement.
pub fn expression_statement(value: Option<Box<TExpr>>) -> Option<TStmt>
    ensures { result ≡ spec.expression_statement value }
{
    match value {
        None => None,
        Some(value) => Some(TStmt::Expression(value)),
    }
}

/// The declaration of a local.
pub fn local_statement(local: Option<TLocal>) -> Option<TStmt>
    ensures { result ≡ spec.local_statement local }
{
    match local {
        None => None,
        Some(local) => Some(TStmt::Local(local)),
    }
}

/// A part of a `for` that is there.
pub fn there(value: Option<Box<TExpr>>) -> Option<Option<Box<TExpr>>>
    ensures { result ≡ spec.some_part value }
{
    match value {
        None => None,
        Some(value) => Some(Some(value)),
    }
}

/// An expression that a `for` begins with.
pub fn first_value(value: Option<Box<TExpr>>) -> Option<TFirst>
    ensures { result ≡ spec.first_value value }
{
    match value {
        None => None,
        Some(value) => Some(TFirst::Value(value)),
    }
}

/// Locals that a `for` begins with.
pub fn first_locals(list: Option<Seq<TLocal>>) -> Option<TFirst>
    ensures { result ≡ spec.first_locals list }
{
    match list {
        None => None,
        Some(list) => Some(TFirst::Locals(list)),
    }
}
