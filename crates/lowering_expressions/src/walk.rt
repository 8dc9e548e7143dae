//! The code of expressions and of their places, by one walk. It goes no deeper than the tree is high.

ghost use Rattle.std.specs.Prelude.{◌≡◌, ◌^◌, ◌<◌, OnOk};
ghost use Rattle.c_typed_tree.specs.View.{type_view, expr_view};
ghost use Rattle.c_typed_tree.specs.model.View.{exprs_view};
ghost use Rattle.lowering_expressions.specs.Levels.{register_levels, levels_above, levels_of_each};
ghost use Rattle.lowering_expressions.specs.Scopes.{HasLevels, expr_code, place_code};
ghost use Rattle.lowering_expressions.specs.model.Scopes.{exprs_code, commas_code, unary_expression_code, conversion_code};

use crate::forms::{call, combine_register, decision, global, local, local_place};
use crate::places::{is_array, member, plus_of, register_of, target_member};
use crate::scope::LoweringScope;
use c_tree::{BinaryOp, StepOp, UnaryOp};
use c_typed_tree::{CType, TExpr};
use lowering_emitter::code::EmittedCode;
use lowering_emitter::operations::operator_of;
use std::alloc::{AllocError, Global};
use suifvm_ir::insn::{VmBranchOp, VmObject, VmUnaryOp};

/// The code of an expression in front of the code so far: its value comes into the register of its type at the depth.
/// It fails only where memory is short.
#[cycle(emit)]
#[tactic(auto, unfolding(c_typed_tree::specs::model::View::opens))]
pub fn expr(
    alloc: Global,
    code: &mut EmittedCode,
    scope: &LoweringScope<'_>,
    depth: u32,
    e: &TExpr,
) -> Result<(), AllocError>
    requires { HasLevels scope.now depth (register_levels (expr_view e.now)) }
    ensures { OnOk result (code.new ≡ expr_code scope.now depth (expr_view e.now) code.old) }
{
    let r = scope.registers;
    match e {
        TExpr::Number { ty, value } => code.constant(r, depth, ty, *value),
        TExpr::Local { ty, number } => local(code, scope, depth, ty, *number),
        TExpr::Global { ty, number } => global(code, scope, depth, ty, *number),
        TExpr::Call {
            ty,
            callee,
            arguments,
        } => {
            let list = arguments.as_slice();
            call(alloc, code, scope, depth, ty, *callee, list)?;
            exprs(alloc, code, scope, depth, list)
        }
        TExpr::Unary { ty, op, operand } => unary(alloc, code, scope, depth, operand, ty, *op),
        TExpr::Binary {
            ty,
            op,
            left,
            right,
        } => match op {
            BinaryOp::LogicalAnd => {
                let fails = decision(code, r, depth, ty, 0, 1)?;
                code.branch_by(VmBranchOp::IfFalse, r, depth, right.ty(), fails)?;
                expr(alloc, code, scope, depth, right)?;
                code.branch_by(VmBranchOp::IfFalse, r, depth, left.ty(), fails)?;
                expr(alloc, code, scope, depth, left)
            }
            BinaryOp::LogicalOr => {
                let holds = decision(code, r, depth, ty, 1, 0)?;
                code.branch_by(VmBranchOp::IfTrue, r, depth, right.ty(), holds)?;
                expr(alloc, code, scope, depth, right)?;
                code.branch_by(VmBranchOp::IfTrue, r, depth, left.ty(), holds)?;
                expr(alloc, code, scope, depth, left)
            }
            _ => {
                code.binary(scope.structs, r, *op, depth, ty, left.ty(), right.ty())?;
                expr(alloc, code, scope, depth + 1, right)?;
                expr(alloc, code, scope, depth, left)
            }
        },
        TExpr::Assign {
            ty,
            op,
            left,
            right,
        } => match (operator_of(*op), register_of(scope, left)) {
            (None, Some(local)) => {
                code.move_value(ty, local, r.value(depth, ty))?;
                expr(alloc, code, scope, depth, right)
            }
            (Some(op), Some(local)) => {
                combine_register(code, scope, depth, op, ty, right.ty(), local)?;
                expr(alloc, code, scope, depth + 1, right)
            }
            (None, None) => {
                let plus = plus_of(scope, left, 0);
                code.set_memory(scope.structs, r, depth, plus, ty)?;
                expr(alloc, code, scope, depth + 1, right)?;
                code.move_place(r, depth, plus, ty)?;
                place(alloc, code, scope, depth, left, 0)
            }
            (Some(op), None) => {
                let plus = plus_of(scope, left, 0);
                code.combine_memory(scope.structs, r, op, depth, plus, ty, right.ty())?;
                expr(alloc, code, scope, depth + 1, right)?;
                place(alloc, code, scope, depth, left, 0)
            }
        },
        TExpr::Conditional {
            condition,
            holds,
            fails,
            ..
        } => {
            let end = code.name();
            code.start()?;
            expr(alloc, code, scope, depth, fails)?;
            let name = code.name();
            code.jump(end)?;
            expr(alloc, code, scope, depth, holds)?;
            code.branch_by(VmBranchOp::IfFalse, r, depth, condition.ty(), name)?;
            expr(alloc, code, scope, depth, condition)
        }
        TExpr::Cast { ty, operand } => conversion(alloc, code, scope, depth, operand, ty),
        TExpr::Convert { ty, operand } => conversion(alloc, code, scope, depth, operand, ty),
        TExpr::Index { ty, left, right } => {
            code.load(r, depth, ty, 0)?;
            code.element(scope.structs, r, depth, left.ty(), right.ty())?;
            expr(alloc, code, scope, depth + 1, right)?;
            expr(alloc, code, scope, depth, left)
        }
        TExpr::Field {
            ty,
            operand,
            member: number,
        } => {
            let plus = member(scope.structs, operand.ty(), *number, 0);
            code.load(r, depth, ty, plus_of(scope, operand, plus))?;
            place(alloc, code, scope, depth, operand, plus)
        }
        TExpr::Arrow {
            ty,
            operand,
            member: number,
        } => {
            let plus = target_member(scope.structs, operand.ty(), *number, 0);
            code.load(r, depth, ty, plus)?;
            expr(alloc, code, scope, depth, operand)
        }
        TExpr::Postfix { ty, op, operand } => match register_of(scope, operand) {
            Some(local) => code.step_register_later(scope.structs, r, *op, depth, ty, local),
            None => {
                let plus = plus_of(scope, operand, 0);
                code.step_memory_later(scope.structs, r, *op, depth, plus, ty)?;
                place(alloc, code, scope, depth, operand, 0)
            }
        },
        TExpr::Comma { operands, .. } => {
            let list = operands.as_slice();
            commas(alloc, code, scope, depth, list)
        }
    }
}

/// The code of an operator in front of its operand.
#[cycle(emit)]
#[tactic(auto, unfolding(c_typed_tree::specs::model::View::opens))]
fn unary(
    alloc: Global,
    code: &mut EmittedCode,
    scope: &LoweringScope<'_>,
    depth: u32,
    operand: &TExpr,
    ty: &CType,
    op: UnaryOp,
) -> Result<(), AllocError>
    requires own { HasLevels scope.now depth 5 }
    requires operand { HasLevels scope.now depth (register_levels (expr_view operand.now)) }
    ensures { OnOk result (code.new ≡
        unary_expression_code scope.now depth (type_view ty.now) op (expr_view operand.now) code.old) }
{
    let r = scope.registers;
    match op {
        UnaryOp::Address => {
            code.move_pointer(r, depth, plus_of(scope, operand, 0))?;
            place(alloc, code, scope, depth, operand, 0)
        }
        UnaryOp::Dereference => {
            code.load(r, depth, ty, 0)?;
            expr(alloc, code, scope, depth, operand)
        }
        UnaryOp::Increment => match register_of(scope, operand) {
            Some(local) => {
                code.step_register(scope.structs, r, StepOp::Increment, depth, ty, local)
            }
            None => {
                let plus = plus_of(scope, operand, 0);
                code.step_memory(scope.structs, r, StepOp::Increment, depth, plus, ty)?;
                place(alloc, code, scope, depth, operand, 0)
            }
        },
        UnaryOp::Decrement => match register_of(scope, operand) {
            Some(local) => {
                code.step_register(scope.structs, r, StepOp::Decrement, depth, ty, local)
            }
            None => {
                let plus = plus_of(scope, operand, 0);
                code.step_memory(scope.structs, r, StepOp::Decrement, depth, plus, ty)?;
                place(alloc, code, scope, depth, operand, 0)
            }
        },
        UnaryOp::Not => {
            code.not(r, depth, ty, operand.ty())?;
            expr(alloc, code, scope, depth, operand)
        }
        UnaryOp::Plus => expr(alloc, code, scope, depth, operand),
        UnaryOp::Minus => {
            code.unary(VmUnaryOp::Negate, r, depth, ty)?;
            expr(alloc, code, scope, depth, operand)
        }
        UnaryOp::Invert => {
            code.unary(VmUnaryOp::Complement, r, depth, ty)?;
            expr(alloc, code, scope, depth, operand)
        }
    }
}

/// The code of a conversion: an array becomes the pointer to its place.
#[cycle(emit)]
#[tactic(auto, unfolding(c_typed_tree::specs::model::View::opens))]
fn conversion(
    alloc: Global,
    code: &mut EmittedCode,
    scope: &LoweringScope<'_>,
    depth: u32,
    operand: &TExpr,
    ty: &CType,
) -> Result<(), AllocError>
    requires own { HasLevels scope.now depth 5 }
    requires operand { HasLevels scope.now depth (register_levels (expr_view operand.now)) }
    ensures { OnOk result (code.new ≡
        conversion_code scope.now depth (type_view ty.now) (expr_view operand.now) code.old) }
{
    if is_array(operand.ty()) {
        code.move_pointer(scope.registers, depth, plus_of(scope, operand, 0))?;
        return place(alloc, code, scope, depth, operand, 0);
    }
    code.convert_value(scope.registers, depth, operand.ty(), ty)?;
    expr(alloc, code, scope, depth, operand)
}

/// The code of a place in front of the code so far: the pointer to it, moved by so many bytes, comes into the register
/// of pointers at the depth, all of it where a name stands there, else but for what is still to be added. It fails only
/// where memory is short.
#[cycle(emit)]
#[tactic(auto, unfolding(c_typed_tree::specs::model::View::opens))]
pub fn place(
    alloc: Global,
    code: &mut EmittedCode,
    scope: &LoweringScope<'_>,
    depth: u32,
    e: &TExpr,
    plus: u64,
) -> Result<(), AllocError>
    requires levels { HasLevels scope.now depth (register_levels (expr_view e.now)) }
    requires plus { plus < 2 ^ 63 }
    ensures { OnOk result (code.new ≡ place_code scope.now depth (expr_view e.now) plus code.old) }
{
    let r = scope.registers;
    match e {
        TExpr::Local { number, .. } => local_place(code, scope, depth, *number, plus),
        TExpr::Global { number, .. } => code.address_of(r, depth, VmObject::Global(*number), plus),
        TExpr::Unary { op, operand, .. } => match op {
            UnaryOp::Dereference => expr(alloc, code, scope, depth, operand),
            UnaryOp::Address => Ok(()),
            UnaryOp::Increment => Ok(()),
            UnaryOp::Decrement => Ok(()),
            UnaryOp::Not => Ok(()),
            UnaryOp::Plus => Ok(()),
            UnaryOp::Minus => Ok(()),
            UnaryOp::Invert => Ok(()),
        },
        TExpr::Index { left, right, .. } => {
            code.element(scope.structs, r, depth, left.ty(), right.ty())?;
            expr(alloc, code, scope, depth + 1, right)?;
            expr(alloc, code, scope, depth, left)
        }
        TExpr::Field {
            operand,
            member: number,
            ..
        } => {
            let inner = member(scope.structs, operand.ty(), *number, plus);
            place(alloc, code, scope, depth, operand, inner)
        }
        TExpr::Arrow { operand, .. } => expr(alloc, code, scope, depth, operand),
        TExpr::Number { .. } => Ok(()),
        TExpr::Call { .. } => Ok(()),
        TExpr::Binary { .. } => Ok(()),
        TExpr::Assign { .. } => Ok(()),
        TExpr::Conditional { .. } => Ok(()),
        TExpr::Cast { .. } => Ok(()),
        TExpr::Convert { .. } => Ok(()),
        TExpr::Postfix { .. } => Ok(()),
        TExpr::Comma { .. } => Ok(()),
    }
}

/// The code of arguments: each value comes one depth above the one before.
#[cycle(emit)]
#[tactic(auto, unfolding(c_typed_tree::specs::model::View::opens))]
fn exprs(
    alloc: Global,
    code: &mut EmittedCode,
    scope: &LoweringScope<'_>,
    depth: u32,
    list: &[TExpr],
) -> Result<(), AllocError>
    requires { HasLevels scope.now depth (levels_above (exprs_view list.now)) }
    ensures { OnOk result (code.new ≡ exprs_code scope.now depth (exprs_view list.now) code.old) }
{
    let mut i = list.len();
    while i > 0 {
        i -= 1;
        expr(alloc, code, scope, depth + i as u32, &list[i])?;
    }
    Ok(())
}

/// The code of the operands of a comma expression, all at one depth.
#[cycle(emit)]
#[tactic(auto, unfolding(c_typed_tree::specs::model::View::opens))]
fn commas(
    alloc: Global,
    code: &mut EmittedCode,
    scope: &LoweringScope<'_>,
    depth: u32,
    list: &[TExpr],
) -> Result<(), AllocError>
    requires { HasLevels scope.now depth (levels_of_each (exprs_view list.now)) }
    ensures { OnOk result (code.new ≡ commas_code scope.now depth (exprs_view list.now) code.old) }
{
    let mut i = list.len();
    while i > 0 {
        i -= 1;
        expr(alloc, code, scope, depth, &list[i])?;
    }
    Ok(())
}
