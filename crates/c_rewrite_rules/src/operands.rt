//! The operands of expressions, by number.
#![tactic(auto, using(crate::proofs::Exchanges::operand_steps), unfolding(crate::proofs::Exchanges::opens))]

ghost use Rattle.std.specs.Prelude.{◌≡◌, ◌<◌, [], ◌∷◌, length, slice_get, slice_set, Some};
ghost use Rattle.c_typed_tree.specs.View.{expr_view};
ghost use Rattle.c_typed_tree.specs.model.View.{exprs_view};
ghost use Rattle.c_rewrite_rules.specs.Nodes as nodes;

use bk_containers::{Box, Seq};
use c_typed_tree::{CType, TExpr};
use std::mem::replace;

/// What is left in the place of an operand that was taken. Takes no memory.
pub fn leaf() -> TExpr
    ensures { expr_view result ≡ nodes.placeholder }
{
    TExpr::Number {
        ty: CType::Void,
        value: 0,
    }
}

fn count_listed(list: &Seq<TExpr>) -> u32
    ensures { result ≡ length (nodes.counted (exprs_view list.now)) }
{
    let count = list.len();
    if count < 1 << 32 { count as u32 } else { 0 }
}

/// The number of operands.
pub(crate) fn count(e: &TExpr) -> u32
    ensures { result ≡ length (nodes.children_of (expr_view e.now)) }
{
    match e {
        TExpr::Number { .. } => 0,
        TExpr::Local { .. } => 0,
        TExpr::Global { .. } => 0,
        TExpr::Call { arguments, .. } => count_listed(arguments),
        TExpr::Unary { .. } => 1,
        TExpr::Binary { .. } => 2,
        TExpr::Assign { .. } => 2,
        TExpr::Conditional { .. } => 3,
        TExpr::Cast { .. } => 1,
        TExpr::Convert { .. } => 1,
        TExpr::Index { .. } => 2,
        TExpr::Field { .. } => 1,
        TExpr::Arrow { .. } => 1,
        TExpr::Postfix { .. } => 1,
        TExpr::Comma { operands, .. } => count_listed(operands),
    }
}

fn exchange_in(list: Seq<TExpr>, k: u32, new: TExpr) -> (Seq<TExpr>, TExpr)
    requires { k < length list }
    ensures before { slice_get list k ≡ Some result.1 }
    ensures after { result.0 ≡ slice_set list k new }
{
    let mut items = Seq::into_vec(list);
    let slot = &mut items[k as usize];
    let old = replace(slot, new);
    (Seq::from_vec(items), old)
}

fn exchange_listed(list: Seq<TExpr>, k: u32, new: TExpr) -> (Seq<TExpr>, TExpr)
    requires { k < length (nodes.counted (exprs_view list)) }
    ensures before { slice_get (nodes.counted (exprs_view list)) k ≡ Some (expr_view result.1) }
    ensures after { exprs_view result.0 ≡ nodes.with_listed (exprs_view list) k (expr_view new) }
{
    exchange_in(list, k, new)
}

fn exchange_one(only: &mut Box<TExpr>, k: u32, new: TExpr) -> TExpr
    requires { k < 1 }
    ensures before { slice_get (expr_view only.old ∷ []) k ≡ Some (expr_view result) }
    ensures after { expr_view only.new ≡ nodes.pick_first k (expr_view only.old) (expr_view new) }
{
    Box::replace(only, new)
}

fn exchange_two(first: &mut Box<TExpr>, second: &mut Box<TExpr>, k: u32, new: TExpr) -> TExpr
    requires { k < 2 }
    ensures before { slice_get (expr_view first.old ∷ expr_view second.old ∷ []) k ≡ Some (expr_view result) }
    ensures first { expr_view first.new ≡ nodes.pick_first k (expr_view first.old) (expr_view new) }
    ensures second { expr_view second.new ≡ nodes.pick_second k (expr_view second.old) (expr_view new) }
{
    if k == 0 {
        Box::replace(first, new)
    } else {
        Box::replace(second, new)
    }
}

fn exchange_three(
    first: &mut Box<TExpr>,
    second: &mut Box<TExpr>,
    third: &mut Box<TExpr>,
    k: u32,
    new: TExpr,
) -> TExpr
    requires { k < 3 }
    ensures before { slice_get (expr_view first.old ∷ expr_view second.old ∷ expr_view third.old ∷ []) k
        ≡ Some (expr_view result) }
    ensures first { expr_view first.new ≡ nodes.pick_first k (expr_view first.old) (expr_view new) }
    ensures second { expr_view second.new ≡ nodes.pick_second k (expr_view second.old) (expr_view new) }
    ensures third { expr_view third.new ≡ nodes.pick_third k (expr_view third.old) (expr_view new) }
{
    if k == 0 {
        Box::replace(first, new)
    } else if k == 1 {
        Box::replace(second, new)
    } else {
        Box::replace(third, new)
    }
}

/// The expression with another operand in the place of one, and that one. Takes no memory.
pub(crate) fn exchange(e: TExpr, k: u32, new: TExpr) -> (TExpr, TExpr)
    requires { k < length (nodes.children_of (expr_view e)) }
    ensures before { slice_get (nodes.children_of (expr_view e)) k ≡ Some (expr_view result.1) }
    ensures after { expr_view result.0 ≡ nodes.with_child (expr_view e) k (expr_view new) }
{
    match e {
        TExpr::Number { ty, value } => (TExpr::Number { ty, value }, new),
        TExpr::Local { ty, number } => (TExpr::Local { ty, number }, new),
        TExpr::Global { ty, number } => (TExpr::Global { ty, number }, new),
        TExpr::Call {
            ty,
            callee,
            arguments,
        } => {
            let (arguments, old) = exchange_listed(arguments, k, new);
            (
                TExpr::Call {
                    ty,
                    callee,
                    arguments,
                },
                old,
            )
        }
        TExpr::Unary {
            ty,
            op,
            mut operand,
        } => {
            let old = exchange_one(&mut operand, k, new);
            (TExpr::Unary { ty, op, operand }, old)
        }
        TExpr::Binary {
            ty,
            op,
            mut left,
            mut right,
        } => {
            let old = exchange_two(&mut left, &mut right, k, new);
            (
                TExpr::Binary {
                    ty,
                    op,
                    left,
                    right,
                },
                old,
            )
        }
        TExpr::Assign {
            ty,
            op,
            mut left,
            mut right,
        } => {
            let old = exchange_two(&mut left, &mut right, k, new);
            (
                TExpr::Assign {
                    ty,
                    op,
                    left,
                    right,
                },
                old,
            )
        }
        TExpr::Conditional {
            ty,
            mut condition,
            mut holds,
            mut fails,
        } => {
            let old = exchange_three(&mut condition, &mut holds, &mut fails, k, new);
            (
                TExpr::Conditional {
                    ty,
                    condition,
                    holds,
                    fails,
                },
                old,
            )
        }
        TExpr::Cast { ty, mut operand } => {
            let old = exchange_one(&mut operand, k, new);
            (TExpr::Cast { ty, operand }, old)
        }
        TExpr::Convert { ty, mut operand } => {
            let old = exchange_one(&mut operand, k, new);
            (TExpr::Convert { ty, operand }, old)
        }
        TExpr::Index {
            ty,
            mut left,
            mut right,
        } => {
            let old = exchange_two(&mut left, &mut right, k, new);
            (TExpr::Index { ty, left, right }, old)
        }
        TExpr::Field {
            ty,
            mut operand,
            member,
        } => {
            let old = exchange_one(&mut operand, k, new);
            (
                TExpr::Field {
                    ty,
                    operand,
                    member,
                },
                old,
            )
        }
        TExpr::Arrow {
            ty,
            mut operand,
            member,
        } => {
            let old = exchange_one(&mut operand, k, new);
            (
                TExpr::Arrow {
                    ty,
                    operand,
                    member,
                },
                old,
            )
        }
        TExpr::Postfix {
            ty,
            op,
            mut operand,
        } => {
            let old = exchange_one(&mut operand, k, new);
            (TExpr::Postfix { ty, op, operand }, old)
        }
        TExpr::Comma { ty, operands } => {
            let (operands, old) = exchange_listed(operands, k, new);
            (TExpr::Comma { ty, operands }, old)
        }
    }
}
