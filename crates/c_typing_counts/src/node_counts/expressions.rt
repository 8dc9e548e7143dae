//! The expressions in an expression.

ghost use Rattle.std.specs.Prelude.{◌≡◌, ◌+◌, ◌-◌, ◌^◌, min, option_map};
ghost use Rattle.c_typed_tree.specs.View.{expr_view};
ghost use Rattle.c_typed_tree.specs.model.View.{exprs_view};
ghost use Rattle.c_typed_tree.specs.Counts.{expr_nodes, exprs_nodes, optional_nodes};

use bk_containers::{Box, Seq};
use c_typed_tree::TExpr;

/// 1 more than the sum of two counts.
pub(crate) fn one_and(a: u64, b: u64) -> u64
    ensures { result ≡ min (1 + (a + b)) (2 ^ 64 - 1) }
{
    a.saturating_add(b).saturating_add(1)
}

/// An expression with all that stand in it.
#[cycle(nodes)]
#[tactic(auto, unfolding(c_typed_tree::specs::model::View::opens))]
pub fn expr_nodes(e: &TExpr) -> u64
    ensures { result ≡ min (expr_nodes (expr_view e.now)) (2 ^ 64 - 1) }
{
    match e {
        TExpr::Number { .. } => 1,
        TExpr::Local { .. } => 1,
        TExpr::Global { .. } => 1,
        TExpr::Call { arguments, .. } => one_and(exprs_nodes(arguments), 0),
        TExpr::Unary { operand, .. } => one_and(expr_nodes(operand), 0),
        TExpr::Binary { left, right, .. } => one_and(expr_nodes(left), expr_nodes(right)),
        TExpr::Assign { left, right, .. } => one_and(expr_nodes(left), expr_nodes(right)),
        TExpr::Conditional {
            condition,
            holds,
            fails,
            ..
        } => {
            let arms = expr_nodes(holds).saturating_add(expr_nodes(fails));
            one_and(expr_nodes(condition), arms)
        }
        TExpr::Cast { operand, .. } => one_and(expr_nodes(operand), 0),
        TExpr::Convert { operand, .. } => one_and(expr_nodes(operand), 0),
        TExpr::Index { left, right, .. } => one_and(expr_nodes(left), expr_nodes(right)),
        TExpr::Field { operand, .. } => one_and(expr_nodes(operand), 0),
        TExpr::Arrow { operand, .. } => one_and(expr_nodes(operand), 0),
        TExpr::Postfix { operand, .. } => one_and(expr_nodes(operand), 0),
        TExpr::Comma { operands, .. } => one_and(exprs_nodes(operands), 0),
    }
}

/// The sum over some expressions.
#[cycle(nodes)]
fn exprs_nodes(list: &Seq<TExpr>) -> u64
    ensures { result ≡ min (exprs_nodes (exprs_view list.now)) (2 ^ 64 - 1) }
{
    let mut total = 0u64;
    for e in list.as_slice() {
        total = total.saturating_add(expr_nodes(e));
    }
    total
}

/// Those of an expression that may be missing.
pub(crate) fn optional_nodes(e: &Option<Box<TExpr>>) -> u64
    ensures { result ≡ min (optional_nodes (option_map expr_view e.now)) (2 ^ 64 - 1) }
{
    match e {
        None => 0,
        Some(e) => expr_nodes(e),
    }
}
