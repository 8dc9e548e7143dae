//! The statements and expressions in a statement.

ghost use Rattle.std.specs.Prelude.{◌≡◌, ◌-◌, ◌^◌, min, map, sum_by};
ghost use Rattle.c_typed_tree.specs.View.{local_view, first_view, stmt_view};
ghost use Rattle.c_typed_tree.specs.model.View.{stmts_view};
ghost use Rattle.c_typed_tree.specs.Counts.{declared_nodes, first_part_nodes, stmt_nodes, else_nodes, stmts_nodes, sections_nodes};
ghost use Rattle.c_typed_tree.specs.model.Lists.{sections_view, else_view};

use crate::node_counts::expressions::{expr_nodes, one_and, optional_nodes};
use bk_containers::{Box, Seq};
use c_typed_tree::{TFirst, TLocal, TSection, TStmt};

/// Those of the initialiser of a local.
fn local_nodes(local: &TLocal) -> u64
    ensures { result ≡ min (declared_nodes (local_view local.now)) (2 ^ 64 - 1) }
{
    optional_nodes(&local.init)
}

/// The sum over some declarations.
#[tactic(auto, using(crate::proofs::NodeCounts::Counts::locals_end))]
fn locals_nodes(list: &Seq<TLocal>) -> u64
    ensures { result ≡ min (sum_by declared_nodes (map local_view list.now)) (2 ^ 64 - 1) }
{
    let mut total = 0u64;
    for local in list.as_slice() {
        total = total.saturating_add(local_nodes(local));
    }
    total
}

/// Those of the first part of a `for`.
fn first_nodes(first: &TFirst) -> u64
    ensures { result ≡ min (first_part_nodes (first_view first.now)) (2 ^ 64 - 1) }
{
    match first {
        TFirst::Nothing => 0,
        TFirst::Value(value) => expr_nodes(value),
        TFirst::Locals(list) => locals_nodes(list),
    }
}

/// A statement with all that stand in it.
#[cycle(nodes)]
#[tactic(auto, using(c_typed_tree::proofs::Views::view_if), unfolding(c_typed_tree::specs::model::View::opens))]
pub fn stmt_nodes(statement: &TStmt) -> u64
    ensures { result ≡ min (stmt_nodes (stmt_view statement.now)) (2 ^ 64 - 1) }
{
    match statement {
        TStmt::Block(list) => one_and(stmts_nodes(list), 0),
        TStmt::If {
            condition,
            then,
            otherwise,
        } => {
            let arms = stmt_nodes(then).saturating_add(else_nodes(otherwise));
            one_and(expr_nodes(condition), arms)
        }
        TStmt::While { condition, body } => one_and(expr_nodes(condition), stmt_nodes(body)),
        TStmt::Do { body, condition } => one_and(stmt_nodes(body), expr_nodes(condition)),
        TStmt::For {
            first,
            condition,
            step,
            body,
        } => {
            let parts = optional_nodes(condition).saturating_add(optional_nodes(step));
            let head = first_nodes(first).saturating_add(parts);
            one_and(head, stmt_nodes(body))
        }
        TStmt::Switch { operand, sections } => one_and(
            expr_nodes(operand),
            sections_nodes(sections),
        ),
        TStmt::Break => 1,
        TStmt::Continue => 1,
        TStmt::Return(value) => one_and(optional_nodes(value), 0),
        TStmt::Expression(value) => one_and(expr_nodes(value), 0),
        TStmt::Empty => 1,
        TStmt::Local(local) => one_and(local_nodes(local), 0),
    }
}

/// Those of a statement behind `else`, where there is one.
#[cycle(nodes)]
fn else_nodes(otherwise: &Option<Box<TStmt>>) -> u64
    ensures { result ≡ min (else_nodes (else_view otherwise.now)) (2 ^ 64 - 1) }
{
    match otherwise {
        None => 0,
        Some(statement) => stmt_nodes(statement),
    }
}

/// The sum over some statements.
#[cycle(nodes)]
fn stmts_nodes(list: &Seq<TStmt>) -> u64
    ensures { result ≡ min (stmts_nodes (stmts_view list.now)) (2 ^ 64 - 1) }
{
    let mut total = 0u64;
    for statement in list.as_slice() {
        total = total.saturating_add(stmt_nodes(statement));
    }
    total
}

/// The sum over the sections of a `switch`.
#[cycle(nodes)]
fn sections_nodes(list: &Seq<TSection>) -> u64
    ensures { result ≡ min (sections_nodes (sections_view list.now)) (2 ^ 64 - 1) }
{
    let mut total = 0u64;
    for section in list.as_slice() {
        total = total.saturating_add(stmts_nodes(&section.statements));
    }
    total
}
