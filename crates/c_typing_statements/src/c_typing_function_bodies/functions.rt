//! The bodies of functions (C99 6.9.1).

ghost use Rattle.std.specs.Prelude.{◌≡◌, true, Some, IfOk, length};
ghost use Rattle.c_typing_state.specs.Checks.{Finds};
ghost use Rattle.c_typing_statement_parts.specs.c_typing_local_rules.Locals.{with_addressed};
ghost use Rattle.c_typing_statements.specs.c_typing_function_bodies.Functions as spec;

use crate::statements;
use bk_containers::{Name, Seq};
use c_tree::{Declaration, Parameter, Stmt, TypeNode};
use c_typed_tree::{CType, Local, TStmt, TypedFn};
use c_typing_state::{Env, Notes, enter, leave};
use c_typing_statement_parts::c_typing_local_rules::NewLocal;
use c_typing_statement_parts::c_typing_local_rules::locals::{
    declare_parameter, keep_in_memory, parameter_named,
};
use c_typing_statement_parts::type_of;
use c_typing_statement_rules::Jumps;
use std::alloc::{AllocError, Global};
use std::mem::replace;

/// The type of a function.
#[derive(Drop)]
pub struct FunctionType {
    /// `void` or a scalar.
    pub result: CType,
    /// Scalars: an array is a pointer here.
    pub parameters: Seq<CType>,
}

/// The parameters of the declarator of a function.
#[tactic(auto, using(crate::proofs::CTypingFunctionBodies::Rows::parameters_of_takes), unfolding(crate::specs::c_typing_function_bodies::Functions::parameters_of))]
fn parameters_of(node: &TypeNode) -> &[Parameter]
    ensures { result.now ≡ spec.parameters_of node.now }
{
    match node {
        TypeNode::Basic(_) => &[],
        TypeNode::Named(_) => &[],
        TypeNode::Enum { .. } => &[],
        TypeNode::Struct { .. } => &[],
        TypeNode::Pointer(_) => &[],
        TypeNode::Array { .. } => &[],
        TypeNode::Takes { parameters, .. } => parameters.as_slice(),
    }
}

/// Declares a parameter.
fn parameter_of<'a>(
    alloc: Global,
    p: &'a Parameter,
    locals: &mut Seq<Local>,
    env: &mut Env<'a>,
    notes: &mut Notes<'a>,
) -> Result<Option<NewLocal>, AllocError>
    ensures { Finds (spec.judge_parameter p.now (locals.old, (env.old, notes.old)))
        result (locals.new, (env.new, notes.new)) }
{
    let ty = type_of(alloc, &p.ty, env, notes, p.at)?;
    declare_parameter(alloc, locals, env, notes, p.at, &p.name, ty)
}

/// Declares parameters, and says whether none has a fault.
fn parameters<'a>(
    alloc: Global,
    list: &'a [Parameter],
    locals: &mut Seq<Local>,
    env: &mut Env<'a>,
    notes: &mut Notes<'a>,
) -> Result<bool, AllocError>
    ensures { Finds (spec.parameters list.now true (locals.old, (env.old, notes.old)))
        result (locals.new, (env.new, notes.new)) }
{
    let mut sound = true;
    for p in list {
        let found = parameter_of(alloc, p, locals, env, notes)?;
        sound = sound && found.is_some();
    }
    Ok(sound)
}

/// Declares parameters of types that were judged, and says whether none has a fault and each has its type.
fn typed_parameters<'a>(
    alloc: Global,
    list: &'a [Parameter],
    types: Seq<CType>,
    locals: &mut Seq<Local>,
    env: &mut Env<'a>,
    notes: &mut Notes<'a>,
) -> Result<bool, AllocError>
    ensures { Finds (spec.typed_parameters list.now types true (locals.old, (env.old, notes.old)))
        result (locals.new, (env.new, notes.new)) }
{
    let mut sound = true;
    let mut rest = Seq::into_vec(types).into_iter();
    for p in list {
        match rest.next() {
            None => return Ok(false),
            Some(ty) => {
                let found = parameter_named(alloc, locals, env, notes, p.at, &p.name, Some(ty))?;
                sound = sound && found.is_some();
            }
        }
    }
    Ok(sound && rest.next().is_none())
}

/// What a definition declares before its body.
#[derive(Drop)]
struct Head {
    /// The type of the result, where the declarator has no fault.
    result: Option<CType>,
    /// Whether no parameter has a fault.
    sound: bool,
}

/// Declares the parameters of a definition, with the types of the declarator where that has no fault.
fn declare_parameters<'a>(
    alloc: Global,
    of: Option<FunctionType>,
    list: &'a [Parameter],
    locals: &mut Seq<Local>,
    env: &mut Env<'a>,
    notes: &mut Notes<'a>,
) -> Result<Head, AllocError>
    ensures result { IfOk result (λ r. r.result ≡ spec.result_of of) }
    ensures sound { IfOk result (λ r. spec.declared_parameters of list.now (locals.old, (env.old, notes.old))
        ≡ (r.sound, (locals.new, (env.new, notes.new)))) }
{
    match of {
        None => {
            let sound = parameters(alloc, list, locals, env, notes)?;
            Ok(Head {
                result: None,
                sound,
            })
        }
        Some(of) => {
            let FunctionType { result, parameters } = of;
            let sound = typed_parameters(alloc, list, parameters, locals, env, notes)?;
            Ok(Head {
                result: Some(result),
                sound,
            })
        }
    }
}

fn typed_body(
    alloc: Global,
    name: &Name,
    ty: CType,
    params: u32,
    locals: Seq<Local>,
    list: Option<Seq<TStmt>>,
) -> Result<Option<TypedFn>, AllocError>
    ensures { IfOk result (λ r. r ≡ spec.typed_body name.now ty params locals list) }
{
    match list {
        None => Ok(None),
        Some(list) => Ok(Some(TypedFn {
            name: Name::from_slice(alloc, name.as_slice())?,
            result: ty,
            params,
            locals,
            body: TStmt::Block(list),
        })),
    }
}

/// The function, where nothing in it has a fault.
fn typed_function(
    alloc: Global,
    name: &Name,
    of: Option<CType>,
    sound: bool,
    params: u32,
    locals: Seq<Local>,
    list: Option<Seq<TStmt>>,
) -> Result<Option<TypedFn>, AllocError>
    ensures { IfOk result (λ r. r ≡ spec.typed_function name.now of sound params locals list) }
{
    match of {
        None => Ok(None),
        Some(ty) => {
            if sound {
                return typed_body(alloc, name, ty, params, locals, list);
            }
            Ok(None)
        }
    }
}

fn count_of(locals: &Seq<Local>) -> Result<u32, AllocError>
    ensures { IfOk result (λ r. r ≡ length locals.now) }
{
    match u32::try_from(locals.len()) {
        Err(_) => Err(AllocError),
        Ok(count) => Ok(count),
    }
}

/// The locals whose address was taken are objects of memory. Behind a function none is noted.
fn end_locals(alloc: Global, locals: &mut Seq<Local>, notes: &mut Notes<'_>)
    ensures locals { locals.new ≡ with_addressed notes.old.addressed locals.old }
    ensures notes { notes.new ≡ spec.without_addresses notes.old }
{
    let addressed = replace(&mut notes.addressed, Seq::new(alloc));
    keep_in_memory(alloc, locals, addressed.as_slice());
}

/// Judges the body of the function that a declaration defines. `of` is its type, where that declaration has no fault.
/// Parameters and the outermost block of the body are one scope.
pub fn function<'a>(
    alloc: Global,
    declaration: &'a Declaration,
    of: Option<FunctionType>,
    list: &'a [Stmt],
    env: &mut Env<'a>,
    notes: &mut Notes<'a>,
) -> Result<Option<TypedFn>, AllocError>
    ensures { Finds (spec.judge_function declaration.now of list.now (env.old, notes.old)) result (env.new, notes.new) }
{
    let mut locals = Seq::new(alloc);
    let outside = enter(env);
    let list_of = parameters_of(&declaration.ty);
    let head = declare_parameters(alloc, of, list_of, &mut locals, env, notes)?;
    let params = count_of(&locals)?;
    let Head { result: of, sound } = head;
    let found = statements(alloc, list, &of, Jumps::none(), &mut locals, env, notes)?;
    leave(env, outside);
    end_locals(alloc, &mut locals, notes);
    typed_function(alloc, &declaration.name, of, sound, params, locals, found)
}
