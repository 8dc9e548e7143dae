//! Expressions of which nothing but their value comes.

ghost use Rattle.std.specs.Prelude.{◌≡◌, ◌&&◌, not, slice_get};
ghost use Rattle.c_typed_tree.specs.View.{type_view, expr_view};
ghost use Rattle.c_typed_tree.specs.model.View.{exprs_view};
ghost use Rattle.c_typed_tree.specs.Typing.{is_array, is_memory_local};
ghost use Rattle.c_tree.specs.declared.expressions.BinaryOp.TheVariants.{Add};
ghost use Rattle.c_rewrite_rules.specs.Rules as rules;

use bk_containers::Seq;
use c_tree::{BinaryOp, UnaryOp};
use c_typed_tree::units::Local;
use c_typed_tree::{CType, TExpr};
use c_typing_rules::types::is_pointer;

#[tactic(auto, unfolding(c_typed_tree::specs::model::View::opens))]
fn is_signed_integer(ty: &CType) -> bool
    ensures { result ≡ rules.is_signed_integer (type_view ty.now) }
{
    match ty {
        CType::Void => false,
        CType::Int { signed, .. } => *signed,
        CType::Pointer(_) => false,
        CType::Array(_, _) => false,
        CType::Struct(_) => false,
    }
}

#[tactic(auto, unfolding(c_typed_tree::specs::model::View::opens))]
fn is_array_type(ty: &CType) -> bool
    ensures { result ≡ is_array (type_view ty.now) }
{
    match ty {
        CType::Void => false,
        CType::Int { .. } => false,
        CType::Pointer(_) => false,
        CType::Array(_, _) => true,
        CType::Struct(_) => false,
    }
}

fn may_overflow(left: &CType, right: &CType) -> bool
    ensures { result ≡ rules.may_trap Add (type_view left.now) (type_view right.now) }
{
    if is_signed_integer(left) {
        !is_pointer(right)
    } else {
        false
    }
}

fn may_trap(op: BinaryOp, left: &CType, right: &CType) -> bool
    ensures { result ≡ rules.may_trap op (type_view left.now) (type_view right.now) }
{
    match op {
        BinaryOp::LogicalOr => false,
        BinaryOp::LogicalAnd => false,
        BinaryOp::Or => false,
        BinaryOp::Xor => false,
        BinaryOp::And => false,
        BinaryOp::Equal => false,
        BinaryOp::NotEqual => false,
        BinaryOp::Less => false,
        BinaryOp::Greater => false,
        BinaryOp::LessEqual => false,
        BinaryOp::GreaterEqual => false,
        BinaryOp::ShiftLeft => false,
        BinaryOp::ShiftRight => false,
        BinaryOp::Add => may_overflow(left, right),
        BinaryOp::Subtract => may_overflow(left, right),
        BinaryOp::Multiply => may_overflow(left, right),
        BinaryOp::Divide => true,
        BinaryOp::Remainder => true,
    }
}

fn is_in_memory(locals: &[Local], number: u32) -> bool
    ensures { result ≡ is_memory_local (slice_get locals.now number) }
{
    match locals.get(number as usize) {
        None => false,
        Some(local) => local.in_memory,
    }
}

/// Whether nothing is called, assigned, stepped or loaded, and no operator may trap.
#[cycle(idle)]
#[tactic(auto, using(crate::proofs::IdleSteps::idle_steps), unfolding(crate::proofs::Exchanges::opens))]
pub(crate) fn is_idle(e: &TExpr, locals: &[Local]) -> bool
    ensures { result ≡ rules.is_idle locals.now (expr_view e.now) }
{
    match e {
        TExpr::Number { .. } => true,
        TExpr::Local { number, .. } => !is_in_memory(locals, *number),
        TExpr::Global { .. } => false,
        TExpr::Call { .. } => false,
        TExpr::Unary { ty, op, operand } => match op {
            UnaryOp::Increment => false,
            UnaryOp::Decrement => false,
            UnaryOp::Address => is_idle_place(operand, locals),
            UnaryOp::Dereference => false,
            UnaryOp::Plus => is_idle(operand, locals),
            UnaryOp::Minus => {
                if is_signed_integer(ty) {
                    false
                } else {
                    is_idle(operand, locals)
                }
            }
            UnaryOp::Invert => is_idle(operand, locals),
            UnaryOp::Not => is_idle(operand, locals),
        },
        TExpr::Binary {
            op,
            left,
            right,
            ..
        } => {
            if may_trap(*op, left.ty(), right.ty()) {
                return false;
            }
            if is_idle(left, locals) {
                is_idle(right, locals)
            } else {
                false
            }
        }
        TExpr::Assign { .. } => false,
        TExpr::Conditional {
            condition,
            holds,
            fails,
            ..
        } => {
            if !is_idle(condition, locals) {
                return false;
            }
            if is_idle(holds, locals) {
                is_idle(fails, locals)
            } else {
                false
            }
        }
        TExpr::Cast { operand, .. } => {
            if is_array_type(operand.ty()) {
                is_idle_place(operand, locals)
            } else {
                is_idle(operand, locals)
            }
        }
        TExpr::Convert { operand, .. } => {
            if is_array_type(operand.ty()) {
                is_idle_place(operand, locals)
            } else {
                is_idle(operand, locals)
            }
        }
        TExpr::Index { .. } => false,
        TExpr::Field { .. } => false,
        TExpr::Arrow { .. } => false,
        TExpr::Postfix { .. } => false,
        TExpr::Comma { operands, .. } => are_idle(operands, locals),
    }
}

/// Whether the same holds where a place is computed and not read.
#[cycle(idle)]
#[tactic(auto, using(crate::proofs::IdleSteps::idle_steps), unfolding(crate::proofs::Exchanges::opens))]
fn is_idle_place(e: &TExpr, locals: &[Local]) -> bool
    ensures { result ≡ rules.is_idle_place locals.now (expr_view e.now) }
{
    match e {
        TExpr::Number { .. } => false,
        TExpr::Local { .. } => true,
        TExpr::Global { .. } => true,
        TExpr::Call { .. } => false,
        TExpr::Unary { op, operand, .. } => match op {
            UnaryOp::Increment => false,
            UnaryOp::Decrement => false,
            UnaryOp::Address => false,
            UnaryOp::Dereference => is_idle(operand, locals),
            UnaryOp::Plus => false,
            UnaryOp::Minus => false,
            UnaryOp::Invert => false,
            UnaryOp::Not => false,
        },
        TExpr::Binary { .. } => false,
        TExpr::Assign { .. } => false,
        TExpr::Conditional { .. } => false,
        TExpr::Cast { .. } => false,
        TExpr::Convert { .. } => false,
        TExpr::Index { left, right, .. } => {
            if is_idle(left, locals) {
                is_idle(right, locals)
            } else {
                false
            }
        }
        TExpr::Field { operand, .. } => is_idle_place(operand, locals),
        TExpr::Arrow { operand, .. } => is_idle(operand, locals),
        TExpr::Postfix { .. } => false,
        TExpr::Comma { .. } => false,
    }
}

#[cycle(idle)]
#[tactic(auto, using(crate::proofs::IdleSteps::idle_steps), unfolding(crate::proofs::Exchanges::opens))]
fn are_idle(list: &Seq<TExpr>, locals: &[Local]) -> bool
    ensures { result ≡ rules.are_idle locals.now (exprs_view list.now) }
{
    for e in list.as_slice() {
        if !is_idle(e, locals) {
            return false;
        }
    }
    true
}
