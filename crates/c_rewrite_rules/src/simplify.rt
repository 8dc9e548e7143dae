//! Operators that change nothing, products by 0, and conversions that need not be done.

ghost use Rattle.std.specs.Prelude.{◌≡◌, ◌&&◌, ◌||◌, ◌==◌, nat_le, nat_lt, true};
ghost use Rattle.c_typed_tree.specs.View.{type_view, expr_view};
ghost use Rattle.c_typed_tree.specs.Expressions.{Binary, Convert, type_of};
ghost use Rattle.c_typed_tree.specs.Constants.{is_integer};
ghost use Rattle.c_typed_tree.specs.Typing.{is_same_type};
ghost use Rattle.c_rewrite_rules.specs.Rules as rules;

use crate::fold::number;
use crate::idle::is_idle;
use crate::literals::literal;
use crate::node::Node;
use crate::operands::{exchange, leaf};
use bk_containers::Box;
use c_tree::BinaryOp;
use c_typed_tree::units::Local;
use c_typed_tree::{CType, TExpr};
use c_typing_rules::types::{is_integer as has_integers, is_same};
use pass_trees::Rule;
use std::alloc::{AllocError, Global};

/// Leaves out operators that change nothing, products by 0 and conversions, in a function with these locals.
#[derive(Clone, Copy, Drop)]
pub struct Simplify<'a> {
    /// The locals and parameters of the function in which the expression stands.
    pub locals: &'a [Local],
}

/// Whether the operator leaves its left operand as it is, by the literal on its right.
fn keeps_left(op: BinaryOp, word: u64) -> bool
    ensures { result ≡ rules.keeps_left op word }
{
    match op {
        BinaryOp::LogicalOr => false,
        BinaryOp::LogicalAnd => false,
        BinaryOp::Or => word == 0,
        BinaryOp::Xor => word == 0,
        BinaryOp::And => false,
        BinaryOp::Equal => false,
        BinaryOp::NotEqual => false,
        BinaryOp::Less => false,
        BinaryOp::Greater => false,
        BinaryOp::LessEqual => false,
        BinaryOp::GreaterEqual => false,
        BinaryOp::ShiftLeft => word == 0,
        BinaryOp::ShiftRight => word == 0,
        BinaryOp::Add => word == 0,
        BinaryOp::Subtract => word == 0,
        BinaryOp::Multiply => word == 1,
        BinaryOp::Divide => false,
        BinaryOp::Remainder => false,
    }
}

/// Whether the operator leaves its right operand as it is, by the literal on its left.
fn keeps_right(op: BinaryOp, word: u64) -> bool
    ensures { result ≡ rules.keeps_right op word }
{
    match op {
        BinaryOp::LogicalOr => false,
        BinaryOp::LogicalAnd => false,
        BinaryOp::Or => false,
        BinaryOp::Xor => false,
        BinaryOp::And => false,
        BinaryOp::Equal => false,
        BinaryOp::NotEqual => false,
        BinaryOp::Less => false,
        BinaryOp::Greater => false,
        BinaryOp::LessEqual => false,
        BinaryOp::GreaterEqual => false,
        BinaryOp::ShiftLeft => false,
        BinaryOp::ShiftRight => false,
        BinaryOp::Add => word == 0,
        BinaryOp::Subtract => false,
        BinaryOp::Multiply => word == 1,
        BinaryOp::Divide => false,
        BinaryOp::Remainder => false,
    }
}

fn is_multiply(op: BinaryOp) -> bool
    ensures { result ≡ rules.is_multiply op }
{
    match op {
        BinaryOp::LogicalOr => false,
        BinaryOp::LogicalAnd => false,
        BinaryOp::Or => false,
        BinaryOp::Xor => false,
        BinaryOp::And => false,
        BinaryOp::Equal => false,
        BinaryOp::NotEqual => false,
        BinaryOp::Less => false,
        BinaryOp::Greater => false,
        BinaryOp::LessEqual => false,
        BinaryOp::GreaterEqual => false,
        BinaryOp::ShiftLeft => false,
        BinaryOp::ShiftRight => false,
        BinaryOp::Add => false,
        BinaryOp::Subtract => false,
        BinaryOp::Multiply => true,
        BinaryOp::Divide => false,
        BinaryOp::Remainder => false,
    }
}

fn is_kept_by_right(op: BinaryOp, right: &TExpr) -> bool
    ensures { result ≡ rules.is_literal_with (rules.keeps_left op) (expr_view right.now) }
{
    match literal(right) {
        None => false,
        Some(word) => keeps_left(op, word),
    }
}

fn is_kept_by_left(op: BinaryOp, left: &TExpr) -> bool
    ensures { result ≡ rules.is_literal_with (rules.keeps_right op) (expr_view left.now) }
{
    match literal(left) {
        None => false,
        Some(word) => keeps_right(op, word),
    }
}

fn is_zero(e: &TExpr) -> bool
    ensures { result ≡ rules.is_literal_with (λ n. n == 0) (expr_view e.now) }
{
    match literal(e) {
        None => false,
        Some(word) => word == 0,
    }
}

fn is_zero_beside(zero: &TExpr, other: &TExpr, locals: &[Local]) -> bool
    ensures { result ≡ (rules.is_literal_with (λ n. n == 0) (expr_view zero.now)
        && rules.is_idle locals.now (expr_view other.now)) }
{
    if is_zero(zero) {
        is_idle(other, locals)
    } else {
        false
    }
}

fn is_zero_product(op: BinaryOp, left: &TExpr, right: &TExpr, locals: &[Local]) -> bool
    ensures { result ≡ rules.is_zero_product locals.now op (expr_view left.now) (expr_view right.now) }
{
    if !is_multiply(op) {
        return false;
    }
    if is_zero_beside(right, left, locals) {
        true
    } else {
        is_zero_beside(left, right, locals)
    }
}

#[tactic(auto, unfolding(c_typed_tree::specs::model::View::opens))]
fn simplify_binary(
    locals: &[Local],
    ty: CType,
    op: BinaryOp,
    left: Box<TExpr>,
    right: Box<TExpr>,
) -> TExpr
    ensures { expr_view result
        ≡ rules.simplified_binary locals.now (type_view ty) op (expr_view left) (expr_view right) }
{
    if is_kept_by_right(op, &right) {
        return Box::into_inner(left);
    }
    if is_kept_by_left(op, &left) {
        return Box::into_inner(right);
    }
    if is_zero_product(op, &left, &right, locals) {
        number(ty, 0)
    } else {
        TExpr::Binary {
            ty,
            op,
            left,
            right,
        }
    }
}

/// Whether the second integer type has all values of the first one.
#[tactic(auto, unfolding(c_typed_tree::specs::model::View::opens))]
fn holds_all(from: &CType, to: &CType) -> bool
    ensures { result ≡ rules.holds_all (type_view from.now) (type_view to.now) }
{
    match from {
        CType::Void => false,
        CType::Int { bytes, signed } => match to {
            CType::Void => false,
            CType::Int {
                bytes: size,
                signed: sign,
            } => {
                if *signed {
                    if *sign { *bytes <= *size } else { false }
                } else if *sign {
                    *bytes < *size
                } else {
                    *bytes <= *size
                }
            }
            CType::Pointer(_) => false,
            CType::Array(_, _) => false,
            CType::Struct(_) => false,
        },
        CType::Pointer(_) => false,
        CType::Array(_, _) => false,
        CType::Struct(_) => false,
    }
}

#[tactic(auto, unfolding(c_typed_tree::specs::model::View::opens))]
fn bytes_of(ty: &CType) -> u8
    ensures { result ≡ rules.integer_bytes (type_view ty.now) }
{
    match ty {
        CType::Void => 0,
        CType::Int { bytes, .. } => *bytes,
        CType::Pointer(_) => 0,
        CType::Array(_, _) => 0,
        CType::Struct(_) => 0,
    }
}

fn are_integers(from: &CType, middle: &CType, to: &CType) -> bool
    ensures { result ≡ (is_integer (type_view from.now) && is_integer (type_view middle.now)
        && is_integer (type_view to.now)) }
{
    if !has_integers(from) {
        return false;
    }
    if has_integers(middle) {
        has_integers(to)
    } else {
        false
    }
}

fn is_wide_enough(from: &CType, middle: &CType, to: &CType) -> bool
    ensures { result ≡ (nat_le (rules.integer_bytes (type_view to.now)) (rules.integer_bytes (type_view middle.now))
        || rules.holds_all (type_view from.now) (type_view middle.now)) }
{
    if bytes_of(to) <= bytes_of(middle) {
        true
    } else {
        holds_all(from, middle)
    }
}

fn leaves_out(from: &CType, middle: &CType, to: &CType) -> bool
    ensures { result ≡ rules.leaves_out (type_view from.now) (type_view middle.now) (type_view to.now) }
{
    if are_integers(from, middle, to) {
        is_wide_enough(from, middle, to)
    } else {
        false
    }
}

/// Whether an operand is a conversion that may be left out below another one.
#[tactic(auto, using(crate::proofs::Kept::kept_steps), unfolding(c_typed_tree::specs::model::View::opens))]
fn is_left_out(e: &TExpr, ty: &CType) -> bool
    ensures { result ≡ rules.is_left_out (type_view ty.now) (expr_view e.now) }
{
    match e {
        TExpr::Number { .. } => false,
        TExpr::Local { .. } => false,
        TExpr::Global { .. } => false,
        TExpr::Call { .. } => false,
        TExpr::Unary { .. } => false,
        TExpr::Binary { .. } => false,
        TExpr::Assign { .. } => false,
        TExpr::Conditional { .. } => false,
        TExpr::Cast { .. } => false,
        TExpr::Convert {
            ty: middle,
            operand,
        } => leaves_out(operand.ty(), middle, ty),
        TExpr::Index { .. } => false,
        TExpr::Field { .. } => false,
        TExpr::Arrow { .. } => false,
        TExpr::Postfix { .. } => false,
        TExpr::Comma { .. } => false,
    }
}

/// The operand of a conversion that is left out below one to a type, in the same box.
#[tactic(auto, using(crate::proofs::Kept::left_out_steps))]
fn below(mut conversion: Box<TExpr>, ty: &CType) -> Box<TExpr>
    requires { rules.is_left_out (type_view ty.now) (expr_view conversion) ≡ true }
    ensures { expr_view result ≡ rules.first_operand (expr_view conversion) }
{
    let whole = Box::replace(&mut conversion, leaf());
    let (_rest, operand) = exchange(whole, 0, leaf());
    let _leaf = Box::replace(&mut conversion, operand);
    conversion
}

#[tactic(auto, unfolding(c_typed_tree::specs::model::View::opens))]
fn convert(ty: CType, operand: Box<TExpr>) -> TExpr
    ensures { expr_view result ≡ Convert (type_view ty) (expr_view operand) }
{
    TExpr::Convert { ty, operand }
}

fn simplify_twice(ty: CType, operand: Box<TExpr>) -> TExpr
    ensures { expr_view result ≡ rules.simplified_twice (type_view ty) (expr_view operand) }
{
    if is_left_out(&operand, &ty) {
        let operand = below(operand, &ty);
        convert(ty, operand)
    } else {
        convert(ty, operand)
    }
}

fn has_type(e: &TExpr, ty: &CType) -> bool
    ensures { result ≡ (is_integer (type_view ty.now) && is_same_type (type_of (expr_view e.now)) (type_view ty.now)) }
{
    if has_integers(ty) {
        is_same(e.ty(), ty)
    } else {
        false
    }
}

fn simplify_conversion(ty: CType, operand: Box<TExpr>) -> TExpr
    ensures { expr_view result ≡ rules.simplified_conversion (type_view ty) (expr_view operand) }
{
    if has_type(&operand, &ty) {
        Box::into_inner(operand)
    } else {
        simplify_twice(ty, operand)
    }
}

#[tactic(auto, using(crate::proofs::Kept::kept_steps), unfolding(c_typed_tree::specs::model::View::opens))]
fn simplify_expression(locals: &[Local], e: TExpr) -> TExpr
    ensures { expr_view result ≡ rules.simplified locals.now (expr_view e) }
{
    match e {
        TExpr::Number { ty, value } => TExpr::Number { ty, value },
        TExpr::Local { ty, number } => TExpr::Local { ty, number },
        TExpr::Global { ty, number } => TExpr::Global { ty, number },
        TExpr::Call {
            ty,
            callee,
            arguments,
        } => TExpr::Call {
            ty,
            callee,
            arguments,
        },
        TExpr::Unary { ty, op, operand } => TExpr::Unary { ty, op, operand },
        TExpr::Binary {
            ty,
            op,
            left,
            right,
        } => simplify_binary(locals, ty, op, left, right),
        TExpr::Assign {
            ty,
            op,
            left,
            right,
        } => TExpr::Assign {
            ty,
            op,
            left,
            right,
        },
        TExpr::Conditional {
            ty,
            condition,
            holds,
            fails,
        } => TExpr::Conditional {
            ty,
            condition,
            holds,
            fails,
        },
        TExpr::Cast { ty, operand } => TExpr::Cast { ty, operand },
        TExpr::Convert { ty, operand } => simplify_conversion(ty, operand),
        TExpr::Index { ty, left, right } => TExpr::Index { ty, left, right },
        TExpr::Field {
            ty,
            operand,
            member,
        } => TExpr::Field {
            ty,
            operand,
            member,
        },
        TExpr::Arrow {
            ty,
            operand,
            member,
        } => TExpr::Arrow {
            ty,
            operand,
            member,
        },
        TExpr::Postfix { ty, op, operand } => TExpr::Postfix { ty, op, operand },
        TExpr::Comma { ty, operands } => TExpr::Comma { ty, operands },
    }
}

impl<'a> Rule for Simplify<'a> {
    type Node = Node;

    ghost use Rattle.c_rewrite_rules.specs.Rules.{simplified};
    ghost use Rattle.c_rewrite_rules.specs.model.Simplified.{simplified_refines};
    ghost use Rattle.c_rewrite_rules.specs.model.Heights.{simplified_low};

    ghost turned = { λ rule node. simplified rule.locals.now node };

    ghost growth = { 0 };

    fn apply(&self, _alloc: Global, node: Node) -> Result<Node, AllocError> {
        let Node(e) = node;
        Ok(Node(simplify_expression(self.locals, e)))
    }

    ghost refines_node = { λ rule node. simplified_refines rule.locals.now node };

    ghost grows = { λ rule node. simplified_low rule.locals.now node };
}
