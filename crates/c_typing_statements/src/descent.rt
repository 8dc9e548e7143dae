//! The walk over statements.

ghost use Rattle.std.specs.Prelude.{Some, []};
ghost use Rattle.c_typing_state.specs.Checks.{Finds, walk};
ghost use Rattle.c_typing_statements.specs.Statements as spec;
ghost use Rattle.c_typing_statements.specs.model.Lists as model;

use bk_arithmetic::integer_type::IntegerType;
use bk_containers::{Box, Seq};
use c_tree::{Section, Stmt};
use c_typed_tree::{CType, Local, TSection, TStmt};
use c_typing_primary_rules::switches::SwitchValue;
use c_typing_state::{Env, Notes, append_part, enter, leave};
use c_typing_statement_parts::{
    condition_of, first_of, label_of, local_of, operand_of, optional_condition, optional_value,
    return_statement, value_of,
};
use c_typing_statement_rules::forms::{
    block, do_loop, expression_statement, for_loop, if_else, local_statement, section_under,
    switch, switch_type, while_loop,
};
use c_typing_statement_rules::jumps::{break_statement, continue_statement};
use c_typing_statement_rules::{Jumps, Labels};
use std::alloc::{AllocError, Global};

/// Judges a statement. `of` is the type of the function's result, where its declaration has no fault.
#[cycle(statement)]
#[tactic(auto, using(crate::proofs::Rows::rows), unfolding(crate::specs::model::Opens::opens))]
pub fn statement<'a>(
    alloc: Global,
    s: &'a Stmt,
    of: &Option<CType>,
    jumps: Jumps,
    locals: &mut Seq<Local>,
    env: &mut Env<'a>,
    notes: &mut Notes<'a>,
) -> Result<Option<TStmt>, AllocError>
    ensures { Finds (spec.statement of.now jumps s.now (locals.old, (env.old, notes.old)))
        result (locals.new, (env.new, notes.new)) }
{
    match s {
        Stmt::Block(list) => {
            statement_block(alloc, list.as_slice(), of, jumps, locals, env, notes)
        }
        Stmt::If {
            condition,
            then,
            otherwise,
        } => {
            let c = condition_of(alloc, condition, env, notes)?;
            let a = statement(alloc, then, of, jumps, locals, env, notes)?;
            let b = else_statement(alloc, otherwise, of, jumps, locals, env, notes)?;
            if_else(alloc, c, a, b)
        }
        Stmt::While { condition, body } => {
            let c = condition_of(alloc, condition, env, notes)?;
            let a = statement(alloc, body, of, Jumps::in_loop(), locals, env, notes)?;
            while_loop(alloc, c, a)
        }
        Stmt::Do { body, condition } => {
            let a = statement(alloc, body, of, Jumps::in_loop(), locals, env, notes)?;
            let c = condition_of(alloc, condition, env, notes)?;
            do_loop(alloc, a, c)
        }
        Stmt::For {
            first,
            condition,
            step,
            body,
        } => {
            let outside = enter(env);
            let p = first_of(alloc, first, locals, env, notes)?;
            let q = optional_condition(alloc, condition, env, notes)?;
            let r = optional_value(alloc, step, env, notes)?;
            let a = statement(alloc, body, of, Jumps::in_loop(), locals, env, notes)?;
            leave(env, outside);
            for_loop(alloc, p, q, r, a)
        }
        Stmt::Switch { operand, sections } => {
            let o = operand_of(alloc, operand, env, notes)?;
            let jumps = jumps.in_switch();
            switch_statement(alloc, sections.as_slice(), o, of, jumps, locals, env, notes)
        }
        Stmt::Break { at } => break_statement(notes, jumps, *at),
        Stmt::Continue { at } => continue_statement(notes, jumps, *at),
        Stmt::Return { at, value } => return_statement(alloc, of, *at, value, env, notes),
        Stmt::Expression(e) => {
            let value = value_of(alloc, e, env, notes)?;
            Ok(expression_statement(value))
        }
        Stmt::Empty => Ok(Some(TStmt::Empty)),
        Stmt::Local(local) => {
            let found = local_of(alloc, local, locals, env, notes)?;
            Ok(local_statement(found))
        }
    }
}

/// Judges a block, which is a scope.
#[cycle(statement)]
fn statement_block<'a>(
    alloc: Global,
    list: &'a [Stmt],
    of: &Option<CType>,
    jumps: Jumps,
    locals: &mut Seq<Local>,
    env: &mut Env<'a>,
    notes: &mut Notes<'a>,
) -> Result<Option<TStmt>, AllocError>
    ensures { Finds (model.statement_block of.now jumps list.now (locals.old, (env.old, notes.old)))
        result (locals.new, (env.new, notes.new)) }
{
    let outside = enter(env);
    let found = statements(alloc, list, of, jumps, locals, env, notes)?;
    leave(env, outside);
    Ok(block(found))
}

/// Judges statements in their order.
#[cycle(statement)]
pub fn statements<'a>(
    alloc: Global,
    list: &'a [Stmt],
    of: &Option<CType>,
    jumps: Jumps,
    locals: &mut Seq<Local>,
    env: &mut Env<'a>,
    notes: &mut Notes<'a>,
) -> Result<Option<Seq<TStmt>>, AllocError>
    ensures { Finds (walk (spec.statement of.now jumps) list.now (Some []) (locals.old, (env.old, notes.old)))
        result (locals.new, (env.new, notes.new)) }
{
    let mut found = Some(Seq::new(alloc));
    for s in list {
        let part = statement(alloc, s, of, jumps, locals, env, notes)?;
        found = append_part(found, part)?;
    }
    Ok(found)
}

/// Judges the statement behind `else`, if there is one.
#[cycle(statement)]
fn else_statement<'a>(
    alloc: Global,
    s: &'a Option<Box<Stmt>>,
    of: &Option<CType>,
    jumps: Jumps,
    locals: &mut Seq<Local>,
    env: &mut Env<'a>,
    notes: &mut Notes<'a>,
) -> Result<Option<Option<TStmt>>, AllocError>
    ensures { Finds (model.else_statement of.now jumps s.now (locals.old, (env.old, notes.old)))
        result (locals.new, (env.new, notes.new)) }
{
    match s {
        None => Ok(Some(None)),
        Some(s) => match statement(alloc, s, of, jumps, locals, env, notes)? {
            None => Ok(None),
            Some(s) => Ok(Some(Some(s))),
        },
    }
}

/// Judges what stands in a `switch`, in which `jumps` are those that may be.
#[cycle(statement)]
fn switch_statement<'a>(
    alloc: Global,
    list: &'a [Section],
    operand: Option<SwitchValue>,
    of: &Option<CType>,
    jumps: Jumps,
    locals: &mut Seq<Local>,
    env: &mut Env<'a>,
    notes: &mut Notes<'a>,
) -> Result<Option<TStmt>, AllocError>
    ensures { Finds (model.switch_statement of.now jumps operand list.now (locals.old, (env.old, notes.old)))
        result (locals.new, (env.new, notes.new)) }
{
    let ty = switch_type(&operand);
    let mut labels = Labels::new(alloc);
    let found = sections(alloc, list, ty, of, jumps, &mut labels, locals, env, notes)?;
    Ok(switch(operand, found))
}

/// Judges the sections of a `switch` in their order.
#[cycle(statement)]
fn sections<'a>(
    alloc: Global,
    list: &'a [Section],
    ty: Option<IntegerType>,
    of: &Option<CType>,
    jumps: Jumps,
    labels: &mut Labels,
    locals: &mut Seq<Local>,
    env: &mut Env<'a>,
    notes: &mut Notes<'a>,
) -> Result<Option<Seq<TSection>>, AllocError>
    ensures { Finds (walk (model.section of.now jumps ty) list.now (Some [])
        (labels.old, (locals.old, (env.old, notes.old)))) result (labels.new, (locals.new, (env.new, notes.new))) }
{
    let mut found = Some(Seq::new(alloc));
    for x in list {
        let part = section(alloc, x, ty, of, jumps, labels, locals, env, notes)?;
        found = append_part(found, part)?;
    }
    Ok(found)
}

/// Judges a label of a `switch`, and the statements under it.
#[cycle(statement)]
fn section<'a>(
    alloc: Global,
    x: &'a Section,
    ty: Option<IntegerType>,
    of: &Option<CType>,
    jumps: Jumps,
    labels: &mut Labels,
    locals: &mut Seq<Local>,
    env: &mut Env<'a>,
    notes: &mut Notes<'a>,
) -> Result<Option<TSection>, AllocError>
    ensures { Finds (model.section of.now jumps ty x.now (labels.old, (locals.old, (env.old, notes.old))))
        result (labels.new, (locals.new, (env.new, notes.new))) }
{
    let label = label_of(alloc, ty, &x.label, labels, env, notes)?;
    let found = statements(
        alloc,
        x.statements.as_slice(),
        of,
        jumps,
        locals,
        env,
        notes,
    )?;
    Ok(section_under(label, found))
}
