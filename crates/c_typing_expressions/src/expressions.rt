//! The walk over expressions and type names.

ghost use Rattle.std.specs.Prelude.{◌≡◌, Some, []};
ghost use Rattle.c_tree.specs.declared.expressions.Expr as form;
ghost use Rattle.c_tree.specs.declared.types.TypeNode as declarator;
ghost use Rattle.c_typing_state.specs.Checks.{Finds, walk};
ghost use Rattle.c_typing_expressions.specs.Expressions as spec;
ghost use Rattle.c_typing_expressions.specs.model.Parts as model;

use bk_containers::{Box, Seq};
use c_tree::{AssignOp, BinaryOp, Expr, Parameter, StepOp, TypeName, TypeNode, UnaryOp};
use c_typed_tree::CType;
use c_typing_judgements::calls::call_by_meaning;
use c_typing_judgements::leaves::leaf;
use c_typing_judgements::members::{arrow_of, field_of};
use c_typing_judgements::names::name_of;
use c_typing_judgements::operators::{
    assignment, behind, between, cast, choice, commas, element, in_front, size_of_name,
    size_of_value,
};
use c_typing_judgements::texts::{character, integer, string};
use c_typing_judgements::types::{
    array, function, given_length, parameter_declared, pointer, type_named,
};
use c_typing_rules::TypedExpression;
use c_typing_rules::c_typing_declared_types::DeclaredType;
use c_typing_state::{Env, Notes, append_part, enter, keep_apart, leave, meaning_of, rejoin};
use std::alloc::{AllocError, Global};

/// Judges an expression. Each form with parts is a function of its own, so that the frames stay small where expressions
/// nest.
#[cycle(expression)]
#[tactic(auto, using(crate::proofs::Rows::rows), unfolding(crate::specs::model::Opens::opens))]
pub fn judge<'a>(
    alloc: Global,
    e: &'a Expr,
    env: &mut Env<'a>,
    notes: &mut Notes<'a>,
) -> Result<Option<TypedExpression>, AllocError>
    ensures { Finds (spec.judge e.now (env.old, notes.old)) result (env.new, notes.new) }
{
    match e {
        Expr::Name { at, name } => name_of(alloc, notes, *at, meaning_of(env, name.as_slice())),
        Expr::Number { at, spelling } => integer(alloc, notes, *at, spelling.as_slice()),
        Expr::Character { at, spelling } => character(alloc, notes, *at, spelling.as_slice()),
        Expr::Text { at, spellings } => string(alloc, notes, *at, spellings.as_slice()),
        Expr::Call {
            at,
            name,
            arguments,
        } => judge_call(
            alloc,
            arguments.as_slice(),
            env,
            notes,
            *at,
            name.as_slice(),
        ),
        Expr::Unary { at, op, operand } => judge_unary(alloc, operand, env, notes, *at, *op),
        Expr::Binary {
            at,
            op,
            left,
            right,
        } => judge_binary(alloc, e, env, notes, *at, *op, left, right),
        Expr::Assign {
            at,
            op,
            left,
            right,
        } => judge_assignment(alloc, e, env, notes, *at, *op, left, right),
        Expr::Conditional {
            at,
            condition,
            holds,
            fails,
        } => judge_conditional(alloc, e, env, notes, *at, condition, holds, fails),
        Expr::Cast { at, to, operand } => judge_cast(alloc, e, env, notes, *at, to, operand),
        Expr::SizeOfValue { at, operand } => judge_size_of_value(alloc, operand, env, notes, *at),
        Expr::SizeOfType { at, operand } => judge_size_of_type(alloc, operand, env, notes, *at),
        Expr::Index { at, left, right } => { judge_element(alloc, e, env, notes, *at, left, right) }
        Expr::Field { at, operand, name } => {
            judge_field(alloc, operand, env, notes, *at, name.as_slice())
        }
        Expr::Arrow { at, operand, name } => {
            judge_arrow(alloc, operand, env, notes, *at, name.as_slice())
        }
        Expr::Postfix { at, op, operand } => judge_postfix(alloc, operand, env, notes, *at, *op),
        Expr::Comma { at, operands } => {
            judge_commas(alloc, operands.as_slice(), env, notes, *at)
        }
    }
}

/// Judges a call.
#[cycle(expression)]
#[tactic(auto, using(crate::proofs::Rows::rows), unfolding(crate::specs::model::Opens::opens))]
fn judge_call<'a>(
    alloc: Global,
    arguments: &'a [Expr],
    env: &mut Env<'a>,
    notes: &mut Notes<'a>,
    at: u32,
    name: &'a [u8],
) -> Result<Option<TypedExpression>, AllocError>
    ensures { Finds (spec.judge (form.Call at name.now arguments.now) (env.old, notes.old))
        result (env.new, notes.new) }
{
    let found = judges(alloc, arguments, env, notes)?;
    let meaning = meaning_of(env, name);
    call_by_meaning(alloc, notes, at, meaning, found)
}

/// Judges an operator in front of an operand.
#[cycle(expression)]
#[tactic(auto, using(crate::proofs::Rows::rows), unfolding(crate::specs::model::Opens::opens))]
fn judge_unary<'a>(
    alloc: Global,
    operand: &'a Expr,
    env: &mut Env<'a>,
    notes: &mut Notes<'a>,
    at: u32,
    op: UnaryOp,
) -> Result<Option<TypedExpression>, AllocError>
    ensures { Finds (spec.judge (form.Unary at op operand.now) (env.old, notes.old)) result (env.new, notes.new) }
{
    let a = judge(alloc, operand, env, notes)?;
    in_front(alloc, notes, at, op, a)
}

/// Judges an operator between two operands.
#[cycle(expression)]
#[tactic(auto, using(crate::proofs::Rows::rows), unfolding(crate::specs::model::Opens::opens))]
fn judge_binary<'a>(
    alloc: Global,
    e: &'a Expr,
    env: &mut Env<'a>,
    notes: &mut Notes<'a>,
    at: u32,
    op: BinaryOp,
    left: &'a Expr,
    right: &'a Expr,
) -> Result<Option<TypedExpression>, AllocError>
    requires { e.now ≡ form.Binary at op left.now right.now }
    ensures { Finds (spec.judge e.now (env.old, notes.old)) result (env.new, notes.new) }
{
    let a = judge(alloc, left, env, notes)?;
    let b = judge(alloc, right, env, notes)?;
    between(alloc, notes, at, op, a, b)
}

/// Judges an assignment.
#[cycle(expression)]
#[tactic(auto, using(crate::proofs::Rows::rows), unfolding(crate::specs::model::Opens::opens))]
fn judge_assignment<'a>(
    alloc: Global,
    e: &'a Expr,
    env: &mut Env<'a>,
    notes: &mut Notes<'a>,
    at: u32,
    op: AssignOp,
    left: &'a Expr,
    right: &'a Expr,
) -> Result<Option<TypedExpression>, AllocError>
    requires { e.now ≡ form.Assign at op left.now right.now }
    ensures { Finds (spec.judge e.now (env.old, notes.old)) result (env.new, notes.new) }
{
    let a = judge(alloc, left, env, notes)?;
    let b = judge(alloc, right, env, notes)?;
    assignment(alloc, notes, at, op, a, b)
}

/// Judges a choice.
#[cycle(expression)]
#[tactic(auto, using(crate::proofs::Rows::rows), unfolding(crate::specs::model::Opens::opens))]
fn judge_conditional<'a>(
    alloc: Global,
    e: &'a Expr,
    env: &mut Env<'a>,
    notes: &mut Notes<'a>,
    at: u32,
    condition: &'a Expr,
    holds: &'a Expr,
    fails: &'a Expr,
) -> Result<Option<TypedExpression>, AllocError>
    requires { e.now ≡ form.Conditional at condition.now holds.now fails.now }
    ensures { Finds (spec.judge e.now (env.old, notes.old)) result (env.new, notes.new) }
{
    let c = judge(alloc, condition, env, notes)?;
    let a = judge(alloc, holds, env, notes)?;
    let b = judge(alloc, fails, env, notes)?;
    choice(alloc, notes, at, c, a, b)
}

/// Judges a cast.
#[cycle(expression)]
#[tactic(auto, using(crate::proofs::Rows::rows), unfolding(crate::specs::model::Opens::opens))]
fn judge_cast<'a>(
    alloc: Global,
    e: &'a Expr,
    env: &mut Env<'a>,
    notes: &mut Notes<'a>,
    at: u32,
    to: &'a TypeName,
    operand: &'a Expr,
) -> Result<Option<TypedExpression>, AllocError>
    requires { e.now ≡ form.Cast at to.now operand.now }
    ensures { Finds (spec.judge e.now (env.old, notes.old)) result (env.new, notes.new) }
{
    let to = judge_type_name(alloc, to, env, notes)?;
    let a = judge(alloc, operand, env, notes)?;
    cast(alloc, notes, at, to, a)
}

/// Judges `sizeof` of an expression.
#[cycle(expression)]
#[tactic(auto, using(crate::proofs::Rows::rows), unfolding(crate::specs::model::Opens::opens))]
fn judge_size_of_value<'a>(
    alloc: Global,
    operand: &'a Expr,
    env: &mut Env<'a>,
    notes: &mut Notes<'a>,
    at: u32,
) -> Result<Option<TypedExpression>, AllocError>
    ensures { Finds (spec.judge (form.SizeOfValue at operand.now) (env.old, notes.old)) result (env.new, notes.new) }
{
    let (addressed, texts) = keep_apart(alloc, notes);
    let a = judge(alloc, operand, env, notes)?;
    rejoin(notes, addressed, texts);
    size_of_value(alloc, notes, at, a)
}

/// Judges `sizeof` of a type name.
#[cycle(expression)]
#[tactic(auto, using(crate::proofs::Rows::rows), unfolding(crate::specs::model::Opens::opens))]
fn judge_size_of_type<'a>(
    alloc: Global,
    operand: &'a TypeName,
    env: &mut Env<'a>,
    notes: &mut Notes<'a>,
    at: u32,
) -> Result<Option<TypedExpression>, AllocError>
    ensures { Finds (spec.judge (form.SizeOfType at operand.now) (env.old, notes.old)) result (env.new, notes.new) }
{
    let of = judge_type_name(alloc, operand, env, notes)?;
    size_of_name(alloc, notes, at, of)
}

/// Judges an element of an array.
#[cycle(expression)]
#[tactic(auto, using(crate::proofs::Rows::rows), unfolding(crate::specs::model::Opens::opens))]
fn judge_element<'a>(
    alloc: Global,
    e: &'a Expr,
    env: &mut Env<'a>,
    notes: &mut Notes<'a>,
    at: u32,
    left: &'a Expr,
    right: &'a Expr,
) -> Result<Option<TypedExpression>, AllocError>
    requires { e.now ≡ form.Index at left.now right.now }
    ensures { Finds (spec.judge e.now (env.old, notes.old)) result (env.new, notes.new) }
{
    let a = judge(alloc, left, env, notes)?;
    let b = judge(alloc, right, env, notes)?;
    element(alloc, notes, at, a, b)
}

/// Judges a member of a struct.
#[cycle(expression)]
#[tactic(auto, using(crate::proofs::Rows::rows), unfolding(crate::specs::model::Opens::opens))]
fn judge_field<'a>(
    alloc: Global,
    operand: &'a Expr,
    env: &mut Env<'a>,
    notes: &mut Notes<'a>,
    at: u32,
    name: &'a [u8],
) -> Result<Option<TypedExpression>, AllocError>
    ensures { Finds (spec.judge (form.Field at operand.now name.now) (env.old, notes.old)) result (env.new, notes.new) }
{
    let a = judge(alloc, operand, env, notes)?;
    field_of(alloc, notes, at, name, a)
}

/// Judges a member of the struct that a pointer points to.
#[cycle(expression)]
#[tactic(auto, using(crate::proofs::Rows::rows), unfolding(crate::specs::model::Opens::opens))]
fn judge_arrow<'a>(
    alloc: Global,
    operand: &'a Expr,
    env: &mut Env<'a>,
    notes: &mut Notes<'a>,
    at: u32,
    name: &'a [u8],
) -> Result<Option<TypedExpression>, AllocError>
    ensures { Finds (spec.judge (form.Arrow at operand.now name.now) (env.old, notes.old)) result (env.new, notes.new) }
{
    let a = judge(alloc, operand, env, notes)?;
    arrow_of(alloc, notes, at, name, a)
}

/// Judges an operator behind an operand.
#[cycle(expression)]
#[tactic(auto, using(crate::proofs::Rows::rows), unfolding(crate::specs::model::Opens::opens))]
fn judge_postfix<'a>(
    alloc: Global,
    operand: &'a Expr,
    env: &mut Env<'a>,
    notes: &mut Notes<'a>,
    at: u32,
    op: StepOp,
) -> Result<Option<TypedExpression>, AllocError>
    ensures { Finds (spec.judge (form.Postfix at op operand.now) (env.old, notes.old)) result (env.new, notes.new) }
{
    let a = judge(alloc, operand, env, notes)?;
    behind(alloc, notes, at, op, a)
}

/// Judges operands of commas.
#[cycle(expression)]
#[tactic(auto, using(crate::proofs::Rows::rows), unfolding(crate::specs::model::Opens::opens))]
fn judge_commas<'a>(
    alloc: Global,
    operands: &'a [Expr],
    env: &mut Env<'a>,
    notes: &mut Notes<'a>,
    at: u32,
) -> Result<Option<TypedExpression>, AllocError>
    ensures { Finds (spec.judge (form.Comma at operands.now) (env.old, notes.old)) result (env.new, notes.new) }
{
    let found = judges(alloc, operands, env, notes)?;
    commas(alloc, notes, at, found)
}

/// Judges expressions in their order.
#[cycle(expression)]
pub fn judges<'a>(
    alloc: Global,
    list: &'a [Expr],
    env: &mut Env<'a>,
    notes: &mut Notes<'a>,
) -> Result<Option<Seq<TypedExpression>>, AllocError>
    ensures { Finds (walk spec.judge list.now (Some []) (env.old, notes.old)) result (env.new, notes.new) }
{
    let mut found = Some(Seq::new(alloc));
    for e in list {
        let part = judge(alloc, e, env, notes)?;
        found = append_part(found, part)?;
    }
    Ok(found)
}

/// Judges the length of an array, if it has one.
#[cycle(expression)]
fn optional_length<'a>(
    alloc: Global,
    length: &'a Option<Box<Expr>>,
    env: &mut Env<'a>,
    notes: &mut Notes<'a>,
) -> Result<Option<Option<u64>>, AllocError>
    ensures { Finds (model.optional_length length.now (env.old, notes.old)) result (env.new, notes.new) }
{
    match length {
        None => Ok(Some(None)),
        Some(e) => {
            let a = judge(alloc, e, env, notes)?;
            given_length(notes, a)
        }
    }
}

/// Judges a parameter, and declares its name.
#[cycle(expression)]
fn one_parameter<'a>(
    alloc: Global,
    p: &'a Parameter,
    env: &mut Env<'a>,
    notes: &mut Notes<'a>,
) -> Result<Option<CType>, AllocError>
    ensures { Finds (model.one_parameter p.now (env.old, notes.old)) result (env.new, notes.new) }
{
    let of = leaf(alloc, &p.ty, env, notes, p.at)?;
    let ty = derive(alloc, &p.ty, env, notes, p.at, of)?;
    parameter_declared(alloc, env, notes, p.at, &p.name, ty)
}

/// Judges parameters in their order.
#[cycle(expression)]
fn parameters<'a>(
    alloc: Global,
    list: &'a [Parameter],
    env: &mut Env<'a>,
    notes: &mut Notes<'a>,
) -> Result<Option<Seq<CType>>, AllocError>
    ensures { Finds (walk model.one_parameter list.now (Some []) (env.old, notes.old)) result (env.new, notes.new) }
{
    let mut found = Some(Seq::new(alloc));
    for p in list {
        let part = one_parameter(alloc, p, env, notes)?;
        found = append_part(found, part)?;
    }
    Ok(found)
}

/// The type that a declarator makes of the one that its specifier gives. `at` is the place of what is declared.
#[cycle(expression)]
#[tactic(auto, using(crate::proofs::Rows::rows), unfolding(crate::specs::model::Opens::opens))]
pub fn derive<'a>(
    alloc: Global,
    node: &'a TypeNode,
    env: &mut Env<'a>,
    notes: &mut Notes<'a>,
    at: u32,
    of: Option<DeclaredType>,
) -> Result<Option<DeclaredType>, AllocError>
    ensures { Finds (spec.derive at node.now of (env.old, notes.old)) result (env.new, notes.new) }
{
    match node {
        TypeNode::Basic(_) => Ok(of),
        TypeNode::Named(_) => Ok(of),
        TypeNode::Enum { .. } => Ok(of),
        TypeNode::Struct { .. } => Ok(of),
        TypeNode::Pointer(target) => derive_pointer(alloc, target, env, notes, at, of),
        TypeNode::Array { element, length } => {
            derive_array(alloc, node, env, notes, at, of, element, length)
        }
        TypeNode::Takes {
            result,
            parameters: list,
        } => derive_function(alloc, node, env, notes, at, of, result, list.as_slice()),
    }
}

/// The type that a declarator makes behind a star.
#[cycle(expression)]
#[tactic(auto, using(crate::proofs::Rows::rows), unfolding(crate::specs::model::Opens::opens))]
fn derive_pointer<'a>(
    alloc: Global,
    target: &'a TypeNode,
    env: &mut Env<'a>,
    notes: &mut Notes<'a>,
    at: u32,
    of: Option<DeclaredType>,
) -> Result<Option<DeclaredType>, AllocError>
    ensures { Finds (spec.derive at (declarator.Pointer target.now) of (env.old, notes.old))
        result (env.new, notes.new) }
{
    let ty = derive(alloc, target, env, notes, at, of)?;
    pointer(alloc, notes, at, ty)
}

/// The type that a declarator makes in front of a length.
#[cycle(expression)]
#[tactic(auto, using(crate::proofs::Rows::rows), unfolding(crate::specs::model::Opens::opens))]
fn derive_array<'a>(
    alloc: Global,
    whole: &'a TypeNode,
    env: &mut Env<'a>,
    notes: &mut Notes<'a>,
    at: u32,
    of: Option<DeclaredType>,
    element: &'a TypeNode,
    length: &'a Option<Box<Expr>>,
) -> Result<Option<DeclaredType>, AllocError>
    requires { whole.now ≡ declarator.Array element.now length.now }
    ensures { Finds (spec.derive at whole.now of (env.old, notes.old)) result (env.new, notes.new) }
{
    let count = optional_length(alloc, length, env, notes)?;
    let ty = derive(alloc, element, env, notes, at, of)?;
    array(alloc, notes, at, count, ty)
}

/// The type that a declarator makes in front of a list of parameters.
#[cycle(expression)]
#[tactic(auto, using(crate::proofs::Rows::rows), unfolding(crate::specs::model::Opens::opens))]
fn derive_function<'a>(
    alloc: Global,
    whole: &'a TypeNode,
    env: &mut Env<'a>,
    notes: &mut Notes<'a>,
    at: u32,
    of: Option<DeclaredType>,
    returned: &'a TypeNode,
    list: &'a [Parameter],
) -> Result<Option<DeclaredType>, AllocError>
    requires { whole.now ≡ declarator.Takes returned.now list.now }
    ensures { Finds (spec.derive at whole.now of (env.old, notes.old)) result (env.new, notes.new) }
{
    let outside = enter(env);
    let found = parameters(alloc, list, env, notes)?;
    leave(env, outside);
    let ty = derive(alloc, returned, env, notes, at, of)?;
    function(notes, at, found, ty)
}

/// Judges a type name.
#[cycle(expression)]
pub fn judge_type_name<'a>(
    alloc: Global,
    name: &'a TypeName,
    env: &mut Env<'a>,
    notes: &mut Notes<'a>,
) -> Result<Option<DeclaredType>, AllocError>
    ensures { Finds (spec.judge_type_name name.now (env.old, notes.old)) result (env.new, notes.new) }
{
    let of = leaf(alloc, &name.ty, env, notes, name.at)?;
    let ty = derive(alloc, &name.ty, env, notes, name.at, of)?;
    type_named(notes, name.at, ty)
}
