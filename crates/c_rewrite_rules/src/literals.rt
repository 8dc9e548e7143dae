//! Integer literals.
#![tactic(auto, using(crate::proofs::LiteralLists::literal_steps), unfolding(crate::proofs::Exchanges::opens))]

ghost use Rattle.std.specs.Prelude.{◌≡◌, ◌&&◌};
ghost use Rattle.c_typed_tree.specs.View.{expr_view};
ghost use Rattle.c_typed_tree.specs.model.View.{exprs_view};
ghost use Rattle.c_rewrite_rules.specs.Rules as rules;

use bk_containers::Seq;
use c_typed_tree::TExpr;

/// The word of an integer literal. None of what is no literal.
pub(crate) fn literal(e: &TExpr) -> Option<u64>
    ensures { result ≡ rules.literal_of (expr_view e.now) }
{
    match e {
        TExpr::Number { value, .. } => Some(*value),
        TExpr::Local { .. } => None,
        TExpr::Global { .. } => None,
        TExpr::Call { .. } => None,
        TExpr::Unary { .. } => None,
        TExpr::Binary { .. } => None,
        TExpr::Assign { .. } => None,
        TExpr::Conditional { .. } => None,
        TExpr::Cast { .. } => None,
        TExpr::Convert { .. } => None,
        TExpr::Index { .. } => None,
        TExpr::Field { .. } => None,
        TExpr::Arrow { .. } => None,
        TExpr::Postfix { .. } => None,
        TExpr::Comma { .. } => None,
    }
}

fn is_literal(e: &TExpr) -> bool
    ensures { result ≡ rules.is_literal (expr_view e.now) }
{
    match literal(e) {
        None => false,
        Some(_) => true,
    }
}

fn are_two(first: &TExpr, second: &TExpr) -> bool
    ensures { result ≡ (rules.is_literal (expr_view first.now) && rules.is_literal (expr_view second.now)) }
{
    if is_literal(first) {
        is_literal(second)
    } else {
        false
    }
}

fn are_three(first: &TExpr, second: &TExpr, third: &TExpr) -> bool
    ensures { result ≡ (rules.is_literal (expr_view first.now) && rules.is_literal (expr_view second.now)
        && rules.is_literal (expr_view third.now)) }
{
    if are_two(first, second) {
        is_literal(third)
    } else {
        false
    }
}

fn are_literals(list: &Seq<TExpr>) -> bool
    ensures { result ≡ rules.are_literals (exprs_view list.now) }
{
    for e in list.as_slice() {
        if !is_literal(e) {
            return false;
        }
    }
    true
}

/// Whether it is an operator or a conversion with integer literals alone.
pub(crate) fn is_over_literals(e: &TExpr) -> bool
    ensures { result ≡ rules.is_over_literals (expr_view e.now) }
{
    match e {
        TExpr::Number { .. } => false,
        TExpr::Local { .. } => false,
        TExpr::Global { .. } => false,
        TExpr::Call { .. } => false,
        TExpr::Unary { operand, .. } => is_literal(operand),
        TExpr::Binary { left, right, .. } => are_two(left, right),
        TExpr::Assign { .. } => false,
        TExpr::Conditional {
            condition,
            holds,
            fails,
            ..
        } => are_three(condition, holds, fails),
        TExpr::Cast { operand, .. } => is_literal(operand),
        TExpr::Convert { operand, .. } => is_literal(operand),
        TExpr::Index { .. } => false,
        TExpr::Field { .. } => false,
        TExpr::Arrow { .. } => false,
        TExpr::Postfix { .. } => false,
        TExpr::Comma { operands, .. } => are_literals(operands),
    }
}
