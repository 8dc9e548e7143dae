//! The weight of expressions.

ghost use Rattle.std.specs.Prelude.{◌≡◌, ◌+◌, ◌-◌, ◌^◌, min, option_map};
ghost use Rattle.c_typed_tree.specs.View.{type_view, expr_view};
ghost use Rattle.c_typed_tree.specs.model.View.{exprs_view};
ghost use Rattle.c_typed_tree.specs.Weight.{copy_weight, assign_weight, expr_weight, exprs_weight, optional_weight, init_weight};

use bk_containers::{Box, Seq};
use c_tree::AssignOp;
use c_typed_tree::layout::struct_size;
use c_typed_tree::{CType, StructDef, TExpr};

/// What the copy of a value of a type weighs.
#[tactic(auto, unfolding(c_typed_tree::specs::model::View::opens))]
fn copy_weight(structs: &[StructDef], ty: &CType) -> u64
    ensures { result ≡ copy_weight structs.now (type_view ty.now) }
{
    match ty {
        CType::Void => 0,
        CType::Int { .. } => 0,
        CType::Pointer(_) => 0,
        CType::Array(_, _) => 0,
        CType::Struct(number) => struct_size(structs, *number).div_ceil(8),
    }
}

/// What an assignment weighs besides its operator and its sides.
fn assign_weight(structs: &[StructDef], op: AssignOp, ty: &CType) -> u64
    ensures { result ≡ assign_weight structs.now op (type_view ty.now) }
{
    match op {
        AssignOp::Set => copy_weight(structs, ty),
        AssignOp::Multiply => 0,
        AssignOp::Divide => 0,
        AssignOp::Remainder => 0,
        AssignOp::Add => 0,
        AssignOp::Subtract => 0,
        AssignOp::ShiftLeft => 0,
        AssignOp::ShiftRight => 0,
        AssignOp::And => 0,
        AssignOp::Xor => 0,
        AssignOp::Or => 0,
    }
}

/// 1 more than the sum of two weights.
pub(crate) fn one_and(a: u64, b: u64) -> u64
    ensures { result ≡ min (1 + (a + b)) (2 ^ 64 - 1) }
{
    a.saturating_add(b).saturating_add(1)
}

/// The weight of an expression.
#[cycle(weight)]
#[tactic(auto, unfolding(c_typed_tree::specs::model::View::opens, c_typed_tree::specs::Weight::expr_weight))]
pub fn expr_weight(e: &TExpr, structs: &[StructDef]) -> u64
    ensures { result ≡ min (expr_weight structs.now (expr_view e.now)) (2 ^ 64 - 1) }
{
    match e {
        TExpr::Number { .. } => 1,
        TExpr::Local { .. } => 1,
        TExpr::Global { .. } => 1,
        TExpr::Call { arguments, .. } => one_and(exprs_weight(arguments, structs), 0),
        TExpr::Unary { operand, .. } => one_and(expr_weight(operand, structs), 0),
        TExpr::Binary { left, right, .. } => one_and(
            expr_weight(left, structs),
            expr_weight(right, structs),
        ),
        TExpr::Assign {
            ty,
            op,
            left,
            right,
        } => {
            let sides = expr_weight(left, structs).saturating_add(expr_weight(right, structs));
            one_and(assign_weight(structs, *op, ty), sides)
        }
        TExpr::Conditional {
            condition,
            holds,
            fails,
            ..
        } => {
            let arms = expr_weight(holds, structs).saturating_add(expr_weight(fails, structs));
            one_and(expr_weight(condition, structs), arms)
        }
        TExpr::Cast { operand, .. } => one_and(expr_weight(operand, structs), 0),
        TExpr::Convert { operand, .. } => one_and(expr_weight(operand, structs), 0),
        TExpr::Index { left, right, .. } => one_and(
            expr_weight(left, structs),
            expr_weight(right, structs),
        ),
        TExpr::Field { operand, .. } => one_and(expr_weight(operand, structs), 0),
        TExpr::Arrow { operand, .. } => one_and(expr_weight(operand, structs), 0),
        TExpr::Postfix { operand, .. } => one_and(expr_weight(operand, structs), 0),
        TExpr::Comma { operands, .. } => {
            exprs_weight(operands, structs).saturating_add(
                (operands.len() as u64).saturating_sub(1),
            )
        }
    }
}

/// The sum of the weights of expressions.
#[cycle(weight)]
#[tactic(auto, unfolding(c_typed_tree::specs::Weight::expr_weight))]
fn exprs_weight(list: &Seq<TExpr>, structs: &[StructDef]) -> u64
    ensures { result ≡ min (exprs_weight structs.now (exprs_view list.now)) (2 ^ 64 - 1) }
{
    let mut total = 0u64;
    for e in list.as_slice() {
        total = total.saturating_add(expr_weight(e, structs));
    }
    total
}

/// The weight of an expression that may be missing.
pub(crate) fn optional_weight(e: &Option<Box<TExpr>>, structs: &[StructDef]) -> u64
    ensures { result ≡ min (optional_weight structs.now (option_map expr_view e.now)) (2 ^ 64 - 1) }
{
    match e {
        None => 0,
        Some(e) => expr_weight(e, structs),
    }
}

/// The weight of an initialiser that may be missing.
pub(crate) fn init_weight(e: &Option<Box<TExpr>>, structs: &[StructDef]) -> u64
    ensures { result ≡ min (init_weight structs.now (option_map expr_view e.now)) (2 ^ 64 - 1) }
{
    match e {
        None => 0,
        Some(e) => copy_weight(structs, e.ty()).saturating_add(expr_weight(e, structs)),
    }
}
