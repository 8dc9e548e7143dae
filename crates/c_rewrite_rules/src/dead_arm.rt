//! Arms that a literal chooses.

ghost use Rattle.std.specs.Prelude.{◌≡◌, IfOk};
ghost use Rattle.c_typed_tree.specs.View.{type_view, expr_view};
ghost use Rattle.c_typed_tree.specs.Expressions.{Binary};
ghost use Rattle.c_rewrite_rules.specs.Rules as rules;

use crate::literals::literal;
use crate::node::Node;
use bk_containers::Box;
use c_tree::{BinaryOp, UnaryOp};
use c_typed_tree::{CType, TExpr};
use pass_trees::Rule;
use std::alloc::{AllocError, Global};

/// Keeps the arm of `?:`, `&&` and `||` that a literal on the left chooses.
#[derive(Clone, Copy, Debug, Drop)]
pub struct DeadArm;

/// 1 where a value is true, else 0.
#[tactic(auto, unfolding(c_typed_tree::specs::model::View::opens))]
fn truth_of(alloc: Global, ty: CType, e: Box<TExpr>) -> Result<TExpr, AllocError>
    ensures { IfOk result (λ made. expr_view made ≡ rules.truth_of (type_view ty) (expr_view e)) }
{
    let inner = TExpr::Unary {
        ty: ty.copy(alloc)?,
        op: UnaryOp::Not,
        operand: e,
    };
    Ok(TExpr::Unary {
        ty,
        op: UnaryOp::Not,
        operand: Box::new(alloc, inner)?,
    })
}

#[tactic(auto, unfolding(c_typed_tree::specs::model::View::opens))]
fn choose(ty: CType, condition: Box<TExpr>, holds: Box<TExpr>, fails: Box<TExpr>) -> TExpr
    ensures { expr_view result
        ≡ rules.chosen (type_view ty) (expr_view condition) (expr_view holds) (expr_view fails) }
{
    match literal(&condition) {
        None => TExpr::Conditional {
            ty,
            condition,
            holds,
            fails,
        },
        Some(word) => {
            if word == 0 {
                Box::into_inner(fails)
            } else {
                Box::into_inner(holds)
            }
        }
    }
}

#[tactic(auto, unfolding(c_typed_tree::specs::model::View::opens))]
fn after_and(
    alloc: Global,
    ty: CType,
    left: Box<TExpr>,
    right: Box<TExpr>,
) -> Result<TExpr, AllocError>
    ensures { IfOk result (λ made. expr_view made
        ≡ rules.pruned_and (type_view ty) (expr_view left) (expr_view right)) }
{
    match literal(&left) {
        None => Ok(TExpr::Binary {
            ty,
            op: BinaryOp::LogicalAnd,
            left,
            right,
        }),
        Some(word) => {
            if word == 0 {
                Ok(TExpr::Number { ty, value: 0 })
            } else {
                truth_of(alloc, ty, right)
            }
        }
    }
}

#[tactic(auto, unfolding(c_typed_tree::specs::model::View::opens))]
fn after_or(
    alloc: Global,
    ty: CType,
    left: Box<TExpr>,
    right: Box<TExpr>,
) -> Result<TExpr, AllocError>
    ensures { IfOk result (λ made. expr_view made
        ≡ rules.pruned_or (type_view ty) (expr_view left) (expr_view right)) }
{
    match literal(&left) {
        None => Ok(TExpr::Binary {
            ty,
            op: BinaryOp::LogicalOr,
            left,
            right,
        }),
        Some(word) => {
            if word == 0 {
                truth_of(alloc, ty, right)
            } else {
                Ok(TExpr::Number { ty, value: 1 })
            }
        }
    }
}

#[tactic(auto, unfolding(c_typed_tree::specs::model::View::opens))]
fn binary(ty: CType, op: BinaryOp, left: Box<TExpr>, right: Box<TExpr>) -> TExpr
    ensures { expr_view result ≡ Binary (type_view ty) op (expr_view left) (expr_view right) }
{
    TExpr::Binary {
        ty,
        op,
        left,
        right,
    }
}

fn prune_binary(
    alloc: Global,
    ty: CType,
    op: BinaryOp,
    left: Box<TExpr>,
    right: Box<TExpr>,
) -> Result<TExpr, AllocError>
    ensures { IfOk result (λ made. expr_view made
        ≡ rules.pruned_binary (type_view ty) op (expr_view left) (expr_view right)) }
{
    match op {
        BinaryOp::LogicalOr => after_or(alloc, ty, left, right),
        BinaryOp::LogicalAnd => after_and(alloc, ty, left, right),
        BinaryOp::Or => Ok(binary(ty, op, left, right)),
        BinaryOp::Xor => Ok(binary(ty, op, left, right)),
        BinaryOp::And => Ok(binary(ty, op, left, right)),
        BinaryOp::Equal => Ok(binary(ty, op, left, right)),
        BinaryOp::NotEqual => Ok(binary(ty, op, left, right)),
        BinaryOp::Less => Ok(binary(ty, op, left, right)),
        BinaryOp::Greater => Ok(binary(ty, op, left, right)),
        BinaryOp::LessEqual => Ok(binary(ty, op, left, right)),
        BinaryOp::GreaterEqual => Ok(binary(ty, op, left, right)),
        BinaryOp::ShiftLeft => Ok(binary(ty, op, left, right)),
        BinaryOp::ShiftRight => Ok(binary(ty, op, left, right)),
        BinaryOp::Add => Ok(binary(ty, op, left, right)),
        BinaryOp::Subtract => Ok(binary(ty, op, left, right)),
        BinaryOp::Multiply => Ok(binary(ty, op, left, right)),
        BinaryOp::Divide => Ok(binary(ty, op, left, right)),
        BinaryOp::Remainder => Ok(binary(ty, op, left, right)),
    }
}

#[tactic(auto, using(crate::proofs::Kept::kept_steps), unfolding(c_typed_tree::specs::model::View::opens))]
fn prune(alloc: Global, e: TExpr) -> Result<TExpr, AllocError>
    ensures { IfOk result (λ made. expr_view made ≡ rules.pruned (expr_view e)) }
{
    match e {
        TExpr::Number { ty, value } => Ok(TExpr::Number { ty, value }),
        TExpr::Local { ty, number } => Ok(TExpr::Local { ty, number }),
        TExpr::Global { ty, number } => Ok(TExpr::Global { ty, number }),
        TExpr::Call {
            ty,
            callee,
            arguments,
        } => Ok(TExpr::Call {
            ty,
            callee,
            arguments,
        }),
        TExpr::Unary { ty, op, operand } => Ok(TExpr::Unary { ty, op, operand }),
        TExpr::Binary {
            ty,
            op,
            left,
            right,
        } => prune_binary(alloc, ty, op, left, right),
        TExpr::Assign {
            ty,
            op,
            left,
            right,
        } => Ok(TExpr::Assign {
            ty,
            op,
            left,
            right,
        }),
        TExpr::Conditional {
            ty,
            condition,
            holds,
            fails,
        } => Ok(choose(ty, condition, holds, fails)),
        TExpr::Cast { ty, operand } => Ok(TExpr::Cast { ty, operand }),
        TExpr::Convert { ty, operand } => Ok(TExpr::Convert { ty, operand }),
        TExpr::Index { ty, left, right } => Ok(TExpr::Index { ty, left, right }),
        TExpr::Field {
            ty,
            operand,
            member,
        } => Ok(TExpr::Field {
            ty,
            operand,
            member,
        }),
        TExpr::Arrow {
            ty,
            operand,
            member,
        } => Ok(TExpr::Arrow {
            ty,
            operand,
            member,
        }),
        TExpr::Postfix { ty, op, operand } => Ok(TExpr::Postfix { ty, op, operand }),
        TExpr::Comma { ty, operands } => Ok(TExpr::Comma { ty, operands }),
    }
}

impl Rule for DeadArm {
    type Node = Node;

    ghost use Rattle.c_rewrite_rules.specs.Rules.{pruned};
    ghost use Rattle.c_rewrite_rules.specs.model.Pruned.{pruned_refines};
    ghost use Rattle.c_rewrite_rules.specs.model.Heights.{pruned_low};

    ghost turned = { λ rule node. pruned node };

    ghost growth = { 1 };

    fn apply(&self, alloc: Global, node: Node) -> Result<Node, AllocError> {
        let Node(e) = node;
        Ok(Node(prune(alloc, e)?))
    }

    ghost refines_node = { λ rule node. pruned_refines node };

    ghost grows = { λ rule node. pruned_low node };
}
