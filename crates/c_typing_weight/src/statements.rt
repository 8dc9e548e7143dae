//! The weight of statements.

ghost use Rattle.std.specs.Prelude.{◌≡◌, ◌-◌, ◌^◌, min, map, sum_by};
ghost use Rattle.c_typed_tree.specs.View.{local_view, first_view, stmt_view};
ghost use Rattle.c_typed_tree.specs.model.View.{stmts_view};
ghost use Rattle.c_typed_tree.specs.Weight.{declared_weight, first_weight, label_weight, stmt_weight, else_weight, stmts_weight, sections_weight};
ghost use Rattle.c_typed_tree.specs.model.Lists.{sections_view, else_view};

use crate::expressions::{expr_weight, init_weight, one_and, optional_weight};
use bk_containers::{Box, Seq};
use c_typed_tree::{StructDef, TFirst, TLabel, TLocal, TSection, TStmt};

/// The weight of the declaration of a local.
fn local_weight(local: &TLocal, structs: &[StructDef]) -> u64
    ensures { result ≡ min (declared_weight structs.now (local_view local.now)) (2 ^ 64 - 1) }
{
    one_and(init_weight(&local.init, structs), 0)
}

/// The sum of the weights of declarations.
#[tactic(auto, using(crate::proofs::Weights::locals_weight_end))]
fn locals_weight(list: &Seq<TLocal>, structs: &[StructDef]) -> u64
    ensures { result ≡ min (sum_by (declared_weight structs.now) (map local_view list.now)) (2 ^ 64 - 1) }
{
    let mut total = 0u64;
    for local in list.as_slice() {
        total = total.saturating_add(local_weight(local, structs));
    }
    total
}

/// The weight of the first part of a `for`.
fn first_weight(first: &TFirst, structs: &[StructDef]) -> u64
    ensures { result ≡ min (first_weight structs.now (first_view first.now)) (2 ^ 64 - 1) }
{
    match first {
        TFirst::Nothing => 0,
        TFirst::Value(value) => expr_weight(value, structs),
        TFirst::Locals(list) => locals_weight(list, structs),
    }
}

/// The weight of a label: its constant is a literal.
fn label_weight(label: TLabel) -> u64
    ensures { result ≡ label_weight label }
{
    match label {
        TLabel::Case(_) => 1,
        TLabel::Default => 0,
    }
}

/// The weight of a statement.
#[cycle(weight)]
#[tactic(auto, using(c_typed_tree::proofs::Views::view_if), unfolding(crate::proofs::Opens::statements))]
pub fn stmt_weight(statement: &TStmt, structs: &[StructDef]) -> u64
    ensures { result ≡ min (stmt_weight structs.now (stmt_view statement.now)) (2 ^ 64 - 1) }
{
    match statement {
        TStmt::Block(list) => one_and(stmts_weight(list, structs), 0),
        TStmt::If {
            condition,
            then,
            otherwise,
        } => {
            let arms = stmt_weight(then, structs).saturating_add(else_weight(otherwise, structs));
            one_and(expr_weight(condition, structs), arms)
        }
        TStmt::While { condition, body } => one_and(
            expr_weight(condition, structs),
            stmt_weight(body, structs),
        ),
        TStmt::Do { body, condition } => one_and(
            stmt_weight(body, structs),
            expr_weight(condition, structs),
        ),
        TStmt::For {
            first,
            condition,
            step,
            body,
        } => {
            let parts = optional_weight(condition, structs).saturating_add(optional_weight(
                step, structs,
            ));
            let head = first_weight(first, structs).saturating_add(parts);
            one_and(head, stmt_weight(body, structs))
        }
        TStmt::Switch { operand, sections } => one_and(
            expr_weight(operand, structs),
            sections_weight(sections, structs),
        ),
        TStmt::Break => 1,
        TStmt::Continue => 1,
        TStmt::Return(value) => one_and(optional_weight(value, structs), 0),
        TStmt::Expression(value) => one_and(expr_weight(value, structs), 0),
        TStmt::Empty => 1,
        TStmt::Local(local) => local_weight(local, structs),
    }
}

/// The weight of a statement behind `else`, where there is one.
#[cycle(weight)]
#[tactic(auto, unfolding(c_typed_tree::specs::Weight::stmt_weight))]
fn else_weight(otherwise: &Option<Box<TStmt>>, structs: &[StructDef]) -> u64
    ensures { result ≡ min (else_weight structs.now (else_view otherwise.now)) (2 ^ 64 - 1) }
{
    match otherwise {
        None => 0,
        Some(statement) => stmt_weight(statement, structs),
    }
}

/// The sum of the weights of statements.
#[cycle(weight)]
#[tactic(auto, unfolding(c_typed_tree::specs::Weight::stmt_weight))]
fn stmts_weight(list: &Seq<TStmt>, structs: &[StructDef]) -> u64
    ensures { result ≡ min (stmts_weight structs.now (stmts_view list.now)) (2 ^ 64 - 1) }
{
    let mut total = 0u64;
    for statement in list.as_slice() {
        total = total.saturating_add(stmt_weight(statement, structs));
    }
    total
}

/// The sum of the weights of the sections of a `switch`.
#[cycle(weight)]
#[tactic(auto, unfolding(c_typed_tree::specs::Weight::stmt_weight))]
fn sections_weight(list: &Seq<TSection>, structs: &[StructDef]) -> u64
    ensures { result ≡ min (sections_weight structs.now (sections_view list.now)) (2 ^ 64 - 1) }
{
    let mut total = 0u64;
    for section in list.as_slice() {
        let body = stmts_weight(&section.statements, structs);
        total = total.saturating_add(label_weight(section.label).saturating_add(body));
    }
    total
}
