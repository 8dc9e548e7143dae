//! The parts of statements that are no statements (C99 6.7, 6.8).

ghost use Rattle.std.specs.Prelude.{◌≡◌, Some, []};
ghost use Rattle.c_typing_state.specs.Checks.{Finds, walk};
ghost use Rattle.c_typing_statement_parts.specs.Parts as spec;

use crate::c_typing_local_rules::NewLocal;
use crate::c_typing_local_rules::locals::{declare_local, initialised_local, plain_local};
use bk_arithmetic::integer_type::IntegerType;
use bk_containers::{Box, Seq};
use c_tree::{Expr, ForFirst, Label, TypeNode};
use c_typed_tree::{CType, TExpr, TFirst, TLabel, TLocal, TStmt};
use c_typing_expressions::{derive, judge};
use c_typing_judgements::leaves::leaf;
use c_typing_primary_rules::switches::SwitchValue;
use c_typing_rules::c_typing_declared_types::DeclaredType;
use c_typing_state::{Env, Notes, append_part};
use c_typing_statement_rules::Labels;
use c_typing_statement_rules::forms::{first_locals, first_value, there};
use c_typing_statement_rules::labels::{case_label, default_label};
use c_typing_statement_rules::values::{
    condition, full_expression, return_nothing, return_value, switch_operand,
};
use std::alloc::{AllocError, Global};

/// Judges a condition.
pub fn condition_of<'a>(
    alloc: Global,
    e: &'a Expr,
    env: &mut Env<'a>,
    notes: &mut Notes<'a>,
) -> Result<Option<Box<TExpr>>, AllocError>
    ensures { Finds (spec.condition_of e.now (env.old, notes.old)) result (env.new, notes.new) }
{
    let a = judge(alloc, e, env, notes)?;
    condition(alloc, notes, a)
}

/// Judges an expression whose value is not used.
pub fn value_of<'a>(
    alloc: Global,
    e: &'a Expr,
    env: &mut Env<'a>,
    notes: &mut Notes<'a>,
) -> Result<Option<Box<TExpr>>, AllocError>
    ensures { Finds (spec.full_value e.now (env.old, notes.old)) result (env.new, notes.new) }
{
    let a = judge(alloc, e, env, notes)?;
    full_expression(alloc, a)
}

/// Judges the operand of a `switch`.
pub fn operand_of<'a>(
    alloc: Global,
    e: &'a Expr,
    env: &mut Env<'a>,
    notes: &mut Notes<'a>,
) -> Result<Option<SwitchValue>, AllocError>
    ensures { Finds (spec.operand_of e.now (env.old, notes.old)) result (env.new, notes.new) }
{
    let a = judge(alloc, e, env, notes)?;
    switch_operand(alloc, notes, a)
}

/// Judges the condition of a `for`, if it has one.
pub fn optional_condition<'a>(
    alloc: Global,
    e: &'a Option<Box<Expr>>,
    env: &mut Env<'a>,
    notes: &mut Notes<'a>,
) -> Result<Option<Option<Box<TExpr>>>, AllocError>
    ensures { Finds (spec.optional_condition e.now (env.old, notes.old)) result (env.new, notes.new) }
{
    match e {
        None => Ok(Some(None)),
        Some(e) => {
            let value = condition_of(alloc, e, env, notes)?;
            Ok(there(value))
        }
    }
}

/// Judges the step of a `for`, if it has one.
pub fn optional_value<'a>(
    alloc: Global,
    e: &'a Option<Box<Expr>>,
    env: &mut Env<'a>,
    notes: &mut Notes<'a>,
) -> Result<Option<Option<Box<TExpr>>>, AllocError>
    ensures { Finds (spec.optional_value e.now (env.old, notes.old)) result (env.new, notes.new) }
{
    match e {
        None => Ok(Some(None)),
        Some(e) => {
            let value = value_of(alloc, e, env, notes)?;
            Ok(there(value))
        }
    }
}

/// Judges a `return`. `of` is the type of the function's result, where its declaration has no fault.
pub fn return_statement<'a>(
    alloc: Global,
    of: &Option<CType>,
    at: u32,
    e: &'a Option<Box<Expr>>,
    env: &mut Env<'a>,
    notes: &mut Notes<'a>,
) -> Result<Option<TStmt>, AllocError>
    ensures { Finds (spec.return_statement of.now at e.now (env.old, notes.old)) result (env.new, notes.new) }
{
    match e {
        None => return_nothing(notes, at, of),
        Some(e) => {
            let a = judge(alloc, e, env, notes)?;
            return_value(alloc, notes, at, of, a)
        }
    }
}

/// The type that a declarator in a function gives. `at` is the place of what is declared.
pub fn type_of<'a>(
    alloc: Global,
    node: &'a TypeNode,
    env: &mut Env<'a>,
    notes: &mut Notes<'a>,
    at: u32,
) -> Result<Option<DeclaredType>, AllocError>
    ensures { Finds (spec.judge_type at node.now (env.old, notes.old)) result (env.new, notes.new) }
{
    let of = leaf(alloc, node, env, notes, at)?;
    derive(alloc, node, env, notes, at, of)
}

/// Judges the initialiser of a local, if it has one.
fn initialiser_of<'a>(
    alloc: Global,
    new: Option<NewLocal>,
    e: &'a Option<Box<Expr>>,
    locals: &Seq<c_typed_tree::Local>,
    env: &mut Env<'a>,
    notes: &mut Notes<'a>,
) -> Result<Option<TLocal>, AllocError>
    ensures { Finds (spec.initialiser_of new e.now (locals.now, (env.old, notes.old)))
        result (locals.now, (env.new, notes.new)) }
{
    match e {
        None => Ok(plain_local(new)),
        Some(e) => {
            let a = judge(alloc, e, env, notes)?;
            initialised_local(alloc, notes, new, a)
        }
    }
}

/// Declares a local, and judges its initialiser.
pub fn local_of<'a>(
    alloc: Global,
    local: &'a c_tree::LocalDeclarator,
    locals: &mut Seq<c_typed_tree::Local>,
    env: &mut Env<'a>,
    notes: &mut Notes<'a>,
) -> Result<Option<TLocal>, AllocError>
    ensures { Finds (spec.local_of local.now (locals.old, (env.old, notes.old)))
        result (locals.new, (env.new, notes.new)) }
{
    let d = &local.declaration;
    let ty = type_of(alloc, &d.ty, env, notes, d.at)?;
    let new = declare_local(alloc, locals, env, notes, d.at, d.name.as_slice(), ty)?;
    initialiser_of(alloc, new, &local.init, locals, env, notes)
}

/// Declares locals in their order.
fn locals_of<'a>(
    alloc: Global,
    list: &'a [c_tree::LocalDeclarator],
    locals: &mut Seq<c_typed_tree::Local>,
    env: &mut Env<'a>,
    notes: &mut Notes<'a>,
) -> Result<Option<Seq<TLocal>>, AllocError>
    ensures { Finds (walk spec.local_of list.now (Some []) (locals.old, (env.old, notes.old)))
        result (locals.new, (env.new, notes.new)) }
{
    let mut found = Some(Seq::new(alloc));
    for local in list {
        let part = local_of(alloc, local, locals, env, notes)?;
        found = append_part(found, part)?;
    }
    Ok(found)
}

/// Judges the first part of a `for`.
pub fn first_of<'a>(
    alloc: Global,
    first: &'a ForFirst,
    locals: &mut Seq<c_typed_tree::Local>,
    env: &mut Env<'a>,
    notes: &mut Notes<'a>,
) -> Result<Option<TFirst>, AllocError>
    ensures { Finds (spec.first_of first.now (locals.old, (env.old, notes.old)))
        result (locals.new, (env.new, notes.new)) }
{
    match first {
        ForFirst::Nothing => Ok(Some(TFirst::Nothing)),
        ForFirst::Value(e) => {
            let value = value_of(alloc, e, env, notes)?;
            Ok(first_value(value))
        }
        ForFirst::Locals(list) => {
            let found = locals_of(alloc, list.as_slice(), locals, env, notes)?;
            Ok(first_locals(found))
        }
    }
}

/// Judges a label. `ty` is the promoted type of the operand of its `switch`, where that has no fault.
pub fn label_of<'a>(
    alloc: Global,
    ty: Option<IntegerType>,
    label: &'a Label,
    labels: &mut Labels,
    env: &mut Env<'a>,
    notes: &mut Notes<'a>,
) -> Result<Option<TLabel>, AllocError>
    ensures { Finds (spec.label_of ty label.now (labels.old, (env.old, notes.old)))
        result (labels.new, (env.new, notes.new)) }
{
    match label {
        Label::Case { at, value } => {
            let a = judge(alloc, value, env, notes)?;
            case_label(labels, notes, ty, *at, a)
        }
        Label::Default { at } => default_label(labels, notes, *at),
    }
}
