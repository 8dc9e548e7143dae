//! The code of statements, by one walk. It goes no deeper than the tree is high.

ghost use Rattle.std.specs.Prelude.{◌≡◌, max, OnOk, IfOk, map};
ghost use Rattle.c_typed_tree.specs.View.{stmt_view};
ghost use Rattle.c_typed_tree.specs.model.View.{stmts_view};
ghost use Rattle.c_typed_tree.specs.model.Lists.{sections_view, else_view};
ghost use Rattle.lowering_expressions.specs.Scopes.{HasLevels};
ghost use Rattle.lowering_statements.specs.Levels.{stmt_levels, else_levels, stmts_levels, sections_levels};
ghost use Rattle.lowering_statements.specs.Scopes.{target_view, stmt_code};
ghost use Rattle.lowering_statements.specs.model.Scopes.{else_code, else_name, stmts_code, sections_code, switch_targets};

use crate::labels::{LabelTarget, default_name, labels};
use crate::values::{after, again, declare, first, give, test};
use bk_containers::Box;
use c_typed_tree::{TSection, TStmt};
use lowering_emitter::code::EmittedCode;
use lowering_expressions::{LoweringScope, expr};
use std::alloc::{AllocError, Global};
use suifvm_ir::insn::VmBranchOp;

/// The code of a statement in front of the code so far. A `break` in it goes to the block with the one name, and a
/// `continue` to that with the other one. It fails only where memory is short.
#[cycle(emit)]
#[tactic(auto, using(crate::proofs::Lists::if_code), unfolding(c_typed_tree::specs::model::View::opens))]
pub fn stmt(
    alloc: Global,
    code: &mut EmittedCode,
    scope: &LoweringScope<'_>,
    break_to: usize,
    continue_to: usize,
    s: &TStmt,
) -> Result<(), AllocError>
    requires { HasLevels scope.now 0 (max 5 (stmt_levels (stmt_view s.now))) }
    ensures { OnOk result (code.new ≡ stmt_code scope.now break_to continue_to (stmt_view s.now) code.old) }
{
    match s {
        TStmt::Block(statements) => {
            let list = statements.as_slice();
            stmts(alloc, code, scope, break_to, continue_to, list)
        }
        TStmt::If {
            condition,
            then,
            otherwise,
        } => {
            let name = branch(alloc, code, scope, break_to, continue_to, otherwise)?;
            stmt(alloc, code, scope, break_to, continue_to, then)?;
            code.branch_by(
                VmBranchOp::IfFalse,
                scope.registers,
                0,
                condition.ty(),
                name,
            )?;
            expr(alloc, code, scope, 0, condition)
        }
        TStmt::While { condition, body } => {
            let end = code.name();
            again(alloc, code, scope, condition)?;
            let test = code.name();
            code.start()?;
            stmt(alloc, code, scope, end, test, body)?;
            code.begin_loop(test)
        }
        TStmt::Do { body, condition } => {
            let end = code.name();
            again(alloc, code, scope, condition)?;
            let test = code.name();
            code.start()?;
            stmt(alloc, code, scope, end, test, body)?;
            code.enter()
        }
        TStmt::For {
            first: start,
            condition,
            step,
            body,
        } => {
            let end = code.name();
            test(alloc, code, scope, condition)?;
            let test = code.name();
            after(alloc, code, scope, step)?;
            let next = code.name();
            code.start()?;
            stmt(alloc, code, scope, end, next, body)?;
            code.begin_loop(test)?;
            first(alloc, code, scope, start)
        }
        TStmt::Switch { operand, sections } => {
            let end = code.name();
            code.start()?;
            let list = sections.as_slice();
            let targets = bodies(alloc, code, scope, end, continue_to, list)?;
            code.jump(default_name(end, targets.as_slice()))?;
            labels(code, scope, operand.ty(), targets.as_slice())?;
            expr(alloc, code, scope, 0, operand)
        }
        TStmt::Break => code.jump(break_to),
        TStmt::Continue => code.jump(continue_to),
        TStmt::Return(value) => give(alloc, code, scope, value),
        TStmt::Expression(value) => expr(alloc, code, scope, 0, value),
        TStmt::Empty => Ok(()),
        TStmt::Local(local) => declare(alloc, code, scope, local),
    }
}

/// The code behind the first branch of an `if`. Gives the name of the block where it goes if its condition is zero.
#[cycle(emit)]
#[tactic(auto, unfolding(c_typed_tree::specs::model::View::opens))]
fn branch(
    alloc: Global,
    code: &mut EmittedCode,
    scope: &LoweringScope<'_>,
    break_to: usize,
    continue_to: usize,
    otherwise: &Option<Box<TStmt>>,
) -> Result<usize, AllocError>
    requires { HasLevels scope.now 0 (max 5 (else_levels (else_view otherwise.now))) }
    ensures code { OnOk result (code.new ≡
        else_code scope.now break_to continue_to (else_view otherwise.now) code.old) }
    ensures name { IfOk result (λ n. n ≡
        else_name scope.now break_to continue_to (else_view otherwise.now) code.old) }
{
    let end = code.name();
    code.start()?;
    match otherwise {
        None => Ok(end),
        Some(s) => {
            stmt(alloc, code, scope, break_to, continue_to, s)?;
            let name = code.name();
            code.jump(end)?;
            Ok(name)
        }
    }
}

/// The code of the statements of a block.
#[cycle(emit)]
#[tactic(auto, unfolding(c_typed_tree::specs::model::View::opens))]
fn stmts(
    alloc: Global,
    code: &mut EmittedCode,
    scope: &LoweringScope<'_>,
    break_to: usize,
    continue_to: usize,
    list: &[TStmt],
) -> Result<(), AllocError>
    requires { HasLevels scope.now 0 (max 5 (stmts_levels (stmts_view list.now))) }
    ensures { OnOk result (code.new ≡ stmts_code scope.now break_to continue_to (stmts_view list.now) code.old) }
{
    let mut i = list.len();
    while i > 0 {
        i -= 1;
        stmt(alloc, code, scope, break_to, continue_to, &list[i])?;
    }
    Ok(())
}

/// The code of the sections of a `switch`. Gives their labels with the names of the blocks that begin at them.
#[cycle(emit)]
#[tactic(auto, unfolding(c_typed_tree::specs::model::View::opens))]
fn bodies(
    alloc: Global,
    code: &mut EmittedCode,
    scope: &LoweringScope<'_>,
    break_to: usize,
    continue_to: usize,
    list: &[TSection],
) -> Result<Vec<LabelTarget>, AllocError>
    requires { HasLevels scope.now 0 (max 5 (sections_levels (sections_view list.now))) }
    ensures code { OnOk result (code.new ≡
        sections_code scope.now break_to continue_to (sections_view list.now) code.old) }
    ensures targets { IfOk result (λ ts. map target_view ts.items ≡
        switch_targets scope.now break_to continue_to (sections_view list.now) code.old) }
{
    let mut found = Vec::new(alloc);
    let mut i = list.len();
    while i > 0 {
        i -= 1;
        stmts(
            alloc,
            code,
            scope,
            break_to,
            continue_to,
            list[i].statements.as_slice(),
        )?;
        found.push(LabelTarget {
            label: list[i].label,
            name: code.name(),
        })?;
        code.start()?;
    }
    found.reverse();
    Ok(found)
}
