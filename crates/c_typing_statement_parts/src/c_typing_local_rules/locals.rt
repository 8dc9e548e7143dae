//! Locals and parameters (C99 6.2.1, 6.7, 6.7.8, 6.9.1).

ghost use Rattle.std.specs.Prelude.{◌≡◌};
ghost use Rattle.std.specs.Option.{option_map};
ghost use Rattle.c_typed_tree.specs.Typing.{is_array};
ghost use Rattle.c_typed_tree.specs.View.{type_view};
ghost use Rattle.c_typing_state.specs.Checks.{Finds, each, both_parts};
ghost use Rattle.c_typing_statement_parts.specs.c_typing_local_rules.Locals as spec;

use crate::c_typing_local_rules::objects::{object_type, parameter_type};
use bk_containers::{Box, Name, Seq};
use c_typed_tree::{CType, Local, TExpr, TLocal};
use c_typing_faults::Kind;
use c_typing_judgements::c_typing_operators::take_value;
use c_typing_rules::TypedExpression;
use c_typing_rules::c_typing_declared_types::DeclaredType;
use c_typing_rules::types::is_scalar;
use c_typing_state::{Env, NameMeaning, Notes, declare, note, note_fault, stands_here};
use std::alloc::{AllocError, Global};
use std::mem::replace;

/// A local that is declared.
#[derive(Drop)]
pub struct NewLocal {
    /// Its number in the function.
    pub number: u32,
    pub ty: CType,
}

fn new_local<'a>(
    alloc: Global,
    locals: &mut Seq<Local>,
    env: &mut Env<'a>,
    name: &'a [u8],
    ty: CType,
) -> Result<Option<NewLocal>, AllocError>
    ensures { Finds (spec.new_local name.now ty (locals.old, env.old)) result (locals.new, env.new) }
{
    match u32::try_from(locals.len()) {
        Err(_) => Err(AllocError),
        Ok(number) => {
            let own = ty.copy(alloc)?;
            declare(env, name, NameMeaning::Local { number, ty: own })?;
            let in_memory = !is_scalar(&ty);
            let own = ty.copy(alloc)?;
            locals.push(Local { ty: own, in_memory })?;
            Ok(Some(NewLocal { number, ty }))
        }
    }
}

fn local_of_type<'a>(
    alloc: Global,
    locals: &mut Seq<Local>,
    env: &mut Env<'a>,
    name: &'a [u8],
    ty: Option<CType>,
) -> Result<Option<NewLocal>, AllocError>
    ensures { Finds (spec.local_of_type name.now ty (locals.old, env.old)) result (locals.new, env.new) }
{
    match ty {
        None => {
            declare(env, name, NameMeaning::Faulty)?;
            Ok(None)
        }
        Some(ty) => new_local(alloc, locals, env, name, ty),
    }
}

/// Declares a local by its name.
fn local_named<'a>(
    alloc: Global,
    locals: &mut Seq<Local>,
    env: &mut Env<'a>,
    notes: &mut Notes<'a>,
    at: u32,
    name: &'a [u8],
    ty: Option<CType>,
) -> Result<Option<NewLocal>, AllocError>
    ensures { Finds (spec.local_named at name.now ty (locals.old, (env.old, notes.old)))
        result (locals.new, (env.new, notes.new)) }
{
    if stands_here(env, name) {
        note(notes, at, Kind::Redeclared)?;
        return Ok(None);
    }
    local_of_type(alloc, locals, env, name, ty)
}

/// Declares a local of a block.
pub fn declare_local<'a>(
    alloc: Global,
    locals: &mut Seq<Local>,
    env: &mut Env<'a>,
    notes: &mut Notes<'a>,
    at: u32,
    name: &'a [u8],
    ty: Option<DeclaredType>,
) -> Result<Option<NewLocal>, AllocError>
    ensures { Finds (spec.local_declared at name.now ty (locals.old, (env.old, notes.old)))
        result (locals.new, (env.new, notes.new)) }
{
    let ty = object_type(notes, at, ty)?;
    local_named(alloc, locals, env, notes, at, name, ty)
}

/// A parameter without a name has a fault, if it has none besides.
fn no_name(
    notes: &mut Notes<'_>,
    at: u32,
    ty: Option<CType>,
) -> Result<Option<NewLocal>, AllocError>
    ensures { Finds (each ty (spec.nameless_local at) notes.old) result notes.new }
{
    match ty {
        None => Ok(None),
        Some(_) => {
            note(notes, at, Kind::BadType)?;
            Ok(None)
        }
    }
}

/// Declares a parameter of a function's definition, with its type if that has no fault. One without a name has the
/// fault BadType, if it has none besides. It fails only where memory is short.
pub fn parameter_named<'a>(
    alloc: Global,
    locals: &mut Seq<Local>,
    env: &mut Env<'a>,
    notes: &mut Notes<'a>,
    at: u32,
    name: &'a Option<Name>,
    ty: Option<CType>,
) -> Result<Option<NewLocal>, AllocError>
    ensures { Finds (spec.parameter_named at name.now ty (locals.old, (env.old, notes.old)))
        result (locals.new, (env.new, notes.new)) }
{
    match name {
        None => no_name(notes, at, ty),
        Some(name) => local_named(alloc, locals, env, notes, at, name.as_slice(), ty),
    }
}

/// Declares a parameter of a function's definition.
pub fn declare_parameter<'a>(
    alloc: Global,
    locals: &mut Seq<Local>,
    env: &mut Env<'a>,
    notes: &mut Notes<'a>,
    at: u32,
    name: &'a Option<Name>,
    ty: Option<DeclaredType>,
) -> Result<Option<NewLocal>, AllocError>
    ensures { Finds (spec.parameter_declared at name.now ty (locals.old, (env.old, notes.old)))
        result (locals.new, (env.new, notes.new)) }
{
    let ty = parameter_type(alloc, notes, at, ty)?;
    parameter_named(alloc, locals, env, notes, at, name, ty)
}

fn no_initialiser(notes: &mut Notes<'_>, at: u32) -> Result<Option<Box<TExpr>>, AllocError>
    ensures { Finds (spec.no_initialiser at notes.old) result notes.new }
{
    note(notes, at, Kind::BadInit)?;
    Ok(None)
}

#[tactic(auto, unfolding(c_typed_tree::specs::model::View::opens))]
fn is_array(ty: &CType) -> bool
    ensures { result ≡ is_array (type_view ty.now) }
{
    match ty {
        CType::Void => false,
        CType::Int { .. } => false,
        CType::Pointer(_) => false,
        CType::Array(_, _) => true,
        CType::Struct(_) => false,
    }
}

/// A value that initialises a local.
fn initialiser(
    alloc: Global,
    notes: &mut Notes<'_>,
    ty: &CType,
    a: TypedExpression,
) -> Result<Option<Box<TExpr>>, AllocError>
    ensures { Finds (spec.initialiser ty.now a notes.old) result notes.new }
{
    if is_array(ty) {
        return no_initialiser(notes, a.at);
    }
    let ruling = take_value(alloc, ty, a);
    note_fault(notes, ruling)
}

fn with_initialiser(number: u32, value: Option<Box<TExpr>>) -> Option<TLocal>
    ensures { result ≡ option_map (spec.with_initialiser number) value }
{
    match value {
        None => None,
        Some(value) => Some(TLocal {
            number,
            init: Some(value),
        }),
    }
}

fn initialise(
    alloc: Global,
    notes: &mut Notes<'_>,
    new: NewLocal,
    a: TypedExpression,
) -> Result<Option<TLocal>, AllocError>
    ensures { Finds (spec.local_with_value new a notes.old) result notes.new }
{
    let value = initialiser(alloc, notes, &new.ty, a)?;
    Ok(with_initialiser(new.number, value))
}

/// A local with its initialiser.
pub fn initialised_local(
    alloc: Global,
    notes: &mut Notes<'_>,
    new: Option<NewLocal>,
    a: Option<TypedExpression>,
) -> Result<Option<TLocal>, AllocError>
    ensures { Finds (both_parts new a spec.local_with_value notes.old) result notes.new }
{
    match new {
        None => Ok(None),
        Some(new) => match a {
            None => Ok(None),
            Some(a) => initialise(alloc, notes, new, a),
        },
    }
}

/// A local without an initialiser.
pub fn plain_local(new: Option<NewLocal>) -> Option<TLocal>
    ensures { result ≡ option_map spec.without_initialiser new }
{
    match new {
        None => None,
        Some(new) => Some(TLocal {
            number: new.number,
            init: None,
        }),
    }
}

/// A local whose address was taken is an object of memory.
fn set_in_memory(locals: &mut Vec<Local>, number: u32)
    ensures { locals.new.items ≡ spec.put_in_memory number locals.old.items }
{
    match locals.get_mut(number as usize) {
        None => {}
        Some(local) => local.in_memory = true,
    }
}

/// The locals whose address was taken are objects of memory.
pub fn keep_in_memory(alloc: Global, locals: &mut Seq<Local>, numbers: &[u32])
    ensures { locals.new ≡ spec.with_addressed numbers.now locals.old }
{
    let mut items = Seq::into_vec(replace(locals, Seq::new(alloc)));
    for number in numbers {
        set_in_memory(&mut items, *number);
    }
    *locals = Seq::from_vec(items);
}
