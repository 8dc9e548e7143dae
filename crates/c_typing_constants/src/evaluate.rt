//! The value of an expression, in one walk over its tree.

ghost use Rattle.std.specs.Prelude.{◌≡◌};
ghost use Rattle.c_typed_tree.specs.View.{expr_view, type_view};
ghost use Rattle.c_typed_tree.specs.model.View.{exprs_view};
ghost use Rattle.c_typed_tree.specs.Constants as constants;
ghost use Rattle.c_typed_tree.specs.Typing as typing;
ghost use Rattle.c_typing_constants.specs.Null as null;
ghost use Rattle.c_typing_constants.specs.model.Evaluations as spec;

use crate::evaluation::{
    Evaluation, binary, comma, conditional, evaluation_in, no_constant, number, sequence, start,
    unary,
};
use c_typed_tree::{CType, TExpr};
use c_typing_rules::types::{is_integer, is_pointer};

fn is_nothing(operands: &[TExpr]) -> bool
    ensures { result ≡ spec.is_nothing (exprs_view operands.now) }
{
    match operands {
        [] => true,
        [_, ..] => false,
    }
}

/// Evaluates an expression as a constant.
#[cycle(evaluate)]
#[tactic(auto, unfolding(c_typed_tree::specs::model::View::opens))]
fn evaluate(e: &TExpr) -> Evaluation
    ensures { result ≡ spec.evaluation (expr_view e.now) }
{
    match e {
        TExpr::Number { ty, value } => number(ty, *value),
        TExpr::Local { ty, .. } => no_constant(ty),
        TExpr::Global { ty, .. } => no_constant(ty),
        TExpr::Call { ty, .. } => no_constant(ty),
        TExpr::Unary { ty, op, operand } => unary(ty, *op, evaluate(operand)),
        TExpr::Binary {
            ty,
            op,
            left,
            right,
        } => binary(ty, *op, evaluate(left), evaluate(right)),
        TExpr::Assign { ty, .. } => no_constant(ty),
        TExpr::Conditional {
            ty,
            condition,
            holds,
            fails,
        } => conditional(ty, evaluate(condition), evaluate(holds), evaluate(fails)),
        TExpr::Cast { ty, operand } => evaluation_in(ty, evaluate(operand)),
        TExpr::Convert { ty, operand } => evaluation_in(ty, evaluate(operand)),
        TExpr::Index { ty, .. } => no_constant(ty),
        TExpr::Field { ty, .. } => no_constant(ty),
        TExpr::Arrow { ty, .. } => no_constant(ty),
        TExpr::Postfix { ty, .. } => no_constant(ty),
        TExpr::Comma { ty, operands } => {
            let list = operands.as_slice();
            comma(ty, is_nothing(list), evaluate_all(list))
        }
    }
}

/// Evaluates the operands of commas.
#[cycle(evaluate)]
fn evaluate_all(list: &[TExpr]) -> Evaluation
    ensures { result ≡ spec.last_from spec.start (exprs_view list.now) }
{
    let mut all = start();
    for operand in list {
        all = sequence(all, evaluate(operand));
    }
    all
}

/// The value of an integer constant (C99 6.6), as a word of its type; `None` of what is no integer constant. It takes
/// no memory.
pub fn constant(e: &TExpr) -> Option<u64>
    ensures { result ≡ constants.constant (expr_view e.now) }
{
    evaluate(e).value
}

/// Whether it is the integer constant 0. It takes no memory.
pub fn is_null_constant(e: &TExpr) -> bool
    ensures { result ≡ constants.is_null_constant (expr_view e.now) }
{
    match constant(e) {
        None => false,
        Some(word) => word == 0,
    }
}

/// Whether it is `void *`.
#[tactic(auto, unfolding(c_typed_tree::specs::model::View::opens))]
fn is_pointer_to_void(ty: &CType) -> bool
    ensures { result ≡ typing.is_pointer_to_void (type_view ty.now) }
{
    match ty {
        CType::Void => false,
        CType::Int { .. } => false,
        CType::Pointer(target) => is_void(target),
        CType::Array(_, _) => false,
        CType::Struct(_) => false,
    }
}

#[tactic(auto, unfolding(c_typed_tree::specs::model::View::opens))]
fn is_void(ty: &CType) -> bool
    ensures { result ≡ typing.is_void (type_view ty.now) }
{
    match ty {
        CType::Void => true,
        CType::Int { .. } => false,
        CType::Pointer(_) => false,
        CType::Array(_, _) => false,
        CType::Struct(_) => false,
    }
}

/// The integer constant 0 that is cast to a type, where that is `void *`.
fn is_null_cast(ty: &CType, e: &TExpr) -> bool
    ensures { result ≡ null.is_null_cast (type_view ty.now) (expr_view e.now) }
{
    if is_pointer_to_void(ty) {
        return is_null_constant(e);
    }
    false
}

/// Whether it is the integer constant 0 cast to `void *`. It takes no memory.
#[tactic(auto, unfolding(c_typed_tree::specs::model::View::opens))]
pub fn is_null_void(e: &TExpr) -> bool
    ensures { result ≡ null.is_null_void (expr_view e.now) }
{
    match e {
        TExpr::Cast { ty, operand } => is_null_cast(ty, operand),
        TExpr::Number { .. } => false,
        TExpr::Local { .. } => false,
        TExpr::Global { .. } => false,
        TExpr::Call { .. } => false,
        TExpr::Unary { .. } => false,
        TExpr::Binary { .. } => false,
        TExpr::Assign { .. } => false,
        TExpr::Conditional { .. } => false,
        TExpr::Convert { .. } => false,
        TExpr::Index { .. } => false,
        TExpr::Field { .. } => false,
        TExpr::Arrow { .. } => false,
        TExpr::Postfix { .. } => false,
        TExpr::Comma { .. } => false,
    }
}

/// Whether it is a null pointer as an initialiser may have it: the integer constant 0 that is cast or converted to a
/// pointer type, maybe through several (C99 6.6p7). It takes no memory.
#[tactic(auto, unfolding(c_typed_tree::specs::model::View::opens))]
pub fn is_null_pointer(e: &TExpr) -> bool
    ensures { result ≡ null.is_null_pointer (expr_view e.now) }
{
    match e {
        TExpr::Cast { ty, operand } => {
            if !is_pointer(ty) {
                return false;
            }
            if is_integer(operand.ty()) {
                return is_null_constant(operand);
            }
            is_null_pointer(operand)
        }
        TExpr::Convert { ty, operand } => {
            if !is_pointer(ty) {
                return false;
            }
            if is_integer(operand.ty()) {
                return is_null_constant(operand);
            }
            is_null_pointer(operand)
        }
        TExpr::Number { .. } => false,
        TExpr::Local { .. } => false,
        TExpr::Global { .. } => false,
        TExpr::Call { .. } => false,
        TExpr::Unary { .. } => false,
        TExpr::Binary { .. } => false,
        TExpr::Assign { .. } => false,
        TExpr::Conditional { .. } => false,
        TExpr::Index { .. } => false,
        TExpr::Field { .. } => false,
        TExpr::Arrow { .. } => false,
        TExpr::Postfix { .. } => false,
        TExpr::Comma { .. } => false,
    }
}

/// Whether it is a null pointer constant (C99 6.3.2.3): the integer constant 0, or that one cast to `void *`. It takes
/// no memory.
pub fn is_null_pointer_constant(e: &TExpr) -> bool
    ensures { result ≡ null.is_null_pointer_constant (expr_view e.now) }
{
    is_null_constant(e) || is_null_void(e)
}
