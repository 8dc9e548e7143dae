//! Statements in which each outermost expression is rewritten.

ghost use Rattle.std.specs.Prelude.{◌≡◌, IfOk};
ghost use Rattle.c_typed_tree.specs.View.{stmt_view};
ghost use Rattle.c_typed_tree.specs.model.View.{stmts_view};
ghost use Rattle.c_typed_tree.specs.model.Lists.{sections_view, else_view};
ghost use Rattle.c_rewrite.specs.Rewritten.{rewritten, with_exprs, else_with_exprs, all_with_exprs, sections_with_exprs};

use crate::rewrite::{rewrite_first_in_box, rewrite_in_box, rewrite_local, rewrite_optional};
use bk_containers::{Box, Seq};
use c_typed_tree::units::Local;
use c_typed_tree::{TLabel, TSection, TStmt};
use std::alloc::{AllocError, Global};
use std::mem::replace;

/// A statement in a function with these locals.
#[cycle(statement)]
#[tactic(auto, using(crate::proofs::StatementViews::statement_steps), unfolding(c_rewrite_rules::proofs::Exchanges::opens))]
pub(crate) fn rewrite_statement(
    alloc: Global,
    s: TStmt,
    locals: &[Local],
) -> Result<TStmt, AllocError>
    ensures { IfOk result (λ made. stmt_view made ≡ with_exprs (rewritten locals.now) (stmt_view s)) }
{
    match s {
        TStmt::Block(list) => Ok(TStmt::Block(rewrite_list(alloc, list, locals)?)),
        TStmt::If {
            condition,
            then,
            otherwise,
        } => {
            let condition = rewrite_in_box(alloc, condition, locals)?;
            let then = rewrite_body(alloc, then, locals)?;
            let otherwise = rewrite_else(alloc, otherwise, locals)?;
            Ok(TStmt::If {
                condition,
                then,
                otherwise,
            })
        }
        TStmt::While { condition, body } => {
            let condition = rewrite_in_box(alloc, condition, locals)?;
            let body = rewrite_body(alloc, body, locals)?;
            Ok(TStmt::While { condition, body })
        }
        TStmt::Do { body, condition } => {
            let condition = rewrite_in_box(alloc, condition, locals)?;
            let body = rewrite_body(alloc, body, locals)?;
            Ok(TStmt::Do { body, condition })
        }
        TStmt::For {
            first,
            condition,
            step,
            body,
        } => {
            let first = rewrite_first_in_box(alloc, first, locals)?;
            let condition = rewrite_optional(alloc, condition, locals)?;
            let step = rewrite_optional(alloc, step, locals)?;
            let body = rewrite_body(alloc, body, locals)?;
            Ok(TStmt::For {
                first,
                condition,
                step,
                body,
            })
        }
        TStmt::Switch { operand, sections } => {
            let operand = rewrite_in_box(alloc, operand, locals)?;
            let sections = rewrite_sections(alloc, sections, locals)?;
            Ok(TStmt::Switch { operand, sections })
        }
        TStmt::Break => Ok(TStmt::Break),
        TStmt::Continue => Ok(TStmt::Continue),
        TStmt::Return(e) => Ok(TStmt::Return(rewrite_optional(alloc, e, locals)?)),
        TStmt::Expression(e) => Ok(TStmt::Expression(rewrite_in_box(alloc, e, locals)?)),
        TStmt::Empty => Ok(TStmt::Empty),
        TStmt::Local(local) => Ok(TStmt::Local(rewrite_local(alloc, local, locals)?)),
    }
}

#[cycle(statement)]
fn rewrite_body(
    alloc: Global,
    mut s: Box<TStmt>,
    locals: &[Local],
) -> Result<Box<TStmt>, AllocError>
    ensures { IfOk result (λ made. stmt_view made ≡ with_exprs (rewritten locals.now) (stmt_view s)) }
{
    let whole = Box::replace(&mut s, TStmt::Empty);
    let made = rewrite_statement(alloc, whole, locals)?;
    let _empty = Box::replace(&mut s, made);
    Ok(s)
}

#[cycle(statement)]
fn rewrite_else(
    alloc: Global,
    otherwise: Option<Box<TStmt>>,
    locals: &[Local],
) -> Result<Option<Box<TStmt>>, AllocError>
    ensures { IfOk result (λ made. else_view made ≡ else_with_exprs (rewritten locals.now) (else_view otherwise)) }
{
    match otherwise {
        None => Ok(None),
        Some(s) => Ok(Some(rewrite_body(alloc, s, locals)?)),
    }
}

#[cycle(statement)]
fn rewrite_list(alloc: Global, list: Seq<TStmt>, locals: &[Local]) -> Result<Seq<TStmt>, AllocError>
    ensures { IfOk result (λ made. stmts_view made ≡ all_with_exprs (rewritten locals.now) (stmts_view list)) }
{
    let mut items = Seq::into_vec(list);
    for i in 0..items.len() {
        let slot = &mut items[i];
        let s = replace(slot, TStmt::Empty);
        let made = rewrite_statement(alloc, s, locals)?;
        let slot = &mut items[i];
        let _empty = replace(slot, made);
    }
    Ok(Seq::from_vec(items))
}

#[cycle(statement)]
fn rewrite_section(
    alloc: Global,
    section: TSection,
    locals: &[Local],
) -> Result<TSection, AllocError>
    ensures { IfOk result (λ made. (made.label ≡ section.label)
        × (stmts_view made.statements ≡ all_with_exprs (rewritten locals.now) (stmts_view section.statements))) }
{
    let TSection { label, statements } = section;
    let statements = rewrite_list(alloc, statements, locals)?;
    Ok(TSection { label, statements })
}

#[cycle(statement)]
fn rewrite_sections(
    alloc: Global,
    list: Seq<TSection>,
    locals: &[Local],
) -> Result<Seq<TSection>, AllocError>
    ensures { IfOk result (λ made. sections_view made
        ≡ sections_with_exprs (rewritten locals.now) (sections_view list)) }
{
    let mut items = Seq::into_vec(list);
    for i in 0..items.len() {
        let slot = &mut items[i];
        let section = replace(
            slot,
            TSection {
                label: TLabel::Default,
                statements: Seq::new(alloc),
            },
        );
        let made = rewrite_section(alloc, section, locals)?;
        let slot = &mut items[i];
        let _empty = replace(slot, made);
    }
    Ok(Seq::from_vec(items))
}
