//! What stars, lengths and lists of parameters make of a type, and what type names and parameters are (C99 6.7.5,
//! 6.7.6).

ghost use Rattle.std.specs.Prelude.{◌≡◌, IfOk};
ghost use Rattle.c_typing_state.specs.Checks.{Finds, each, both_parts};
ghost use Rattle.c_typing_judgements.specs.Types as spec;

use crate::leaves::no_type;
use bk_containers::{Name, Seq};
use c_typed_tree::CType;
use c_typing_constants::c_constant_rules::values::length;
use c_typing_faults::Kind;
use c_typing_rules::TypedExpression;
use c_typing_rules::c_typing_declared_types::{
    DeclaredType, MOST_DEPTH, array_of, function_of, is_declarable, is_deep_at_most, parameter_of,
    pointer_to,
};
use c_typing_state::{Env, NameMeaning, Notes, declare, note, note_fault, stands_here};
use std::alloc::{AllocError, Global};

/// The type that there is, or the fault that there is none.
fn there(
    notes: &mut Notes<'_>,
    at: u32,
    made: Option<DeclaredType>,
) -> Result<Option<DeclaredType>, AllocError>
    ensures { Finds (spec.required_type at made notes.old) result notes.new }
{
    match made {
        None => no_type(notes, at, Kind::BadType),
        Some(ty) => Ok(Some(ty)),
    }
}

/// A pointer to a type.
pub fn pointer(
    alloc: Global,
    notes: &mut Notes<'_>,
    at: u32,
    target: Option<DeclaredType>,
) -> Result<Option<DeclaredType>, AllocError>
    ensures { Finds (each target (spec.pointer at) notes.old) result notes.new }
{
    match target {
        None => Ok(None),
        Some(target) => {
            let made = pointer_to(alloc, target)?;
            there(notes, at, made)
        }
    }
}

/// The length of an array.
pub fn given_length(
    notes: &mut Notes<'_>,
    a: Option<TypedExpression>,
) -> Result<Option<Option<u64>>, AllocError>
    ensures { Finds (each a spec.given_length notes.old) result notes.new }
{
    match a {
        None => Ok(None),
        Some(a) => {
            let ruling = length(&a);
            match note_fault(notes, ruling)? {
                None => Ok(None),
                Some(length) => Ok(Some(Some(length))),
            }
        }
    }
}

/// An array of a type.
pub fn array(
    alloc: Global,
    notes: &mut Notes<'_>,
    at: u32,
    length: Option<Option<u64>>,
    element: Option<DeclaredType>,
) -> Result<Option<DeclaredType>, AllocError>
    ensures { Finds (both_parts length element (spec.array at) notes.old) result notes.new }
{
    match length {
        None => Ok(None),
        Some(length) => match element {
            None => Ok(None),
            Some(element) => {
                let made = array_of(alloc, notes.structs.as_slice(), element, length)?;
                there(notes, at, made)
            }
        },
    }
}

/// A function with some parameters.
pub fn function(
    notes: &mut Notes<'_>,
    at: u32,
    parameters: Option<Seq<CType>>,
    of: Option<DeclaredType>,
) -> Result<Option<DeclaredType>, AllocError>
    ensures { Finds (both_parts parameters of (spec.function at) notes.old) result notes.new }
{
    match parameters {
        None => Ok(None),
        Some(parameters) => match of {
            None => Ok(None),
            Some(of) => {
                let made = function_of(of, parameters);
                there(notes, at, made)
            }
        },
    }
}

/// A type name, whose type may not be too deep.
pub fn type_named(
    notes: &mut Notes<'_>,
    at: u32,
    ty: Option<DeclaredType>,
) -> Result<Option<DeclaredType>, AllocError>
    ensures { Finds (each ty (spec.type_named at) notes.old) result notes.new }
{
    match ty {
        None => Ok(None),
        Some(ty) => {
            if is_declarable(notes.structs.as_slice(), &ty) {
                return Ok(Some(ty));
            }
            no_type(notes, at, Kind::BadType)
        }
    }
}

fn no_parameter(notes: &mut Notes<'_>, at: u32, kind: Kind) -> Result<Option<CType>, AllocError>
    ensures { Finds (spec.no_parameter at kind notes.old) result notes.new }
{
    note(notes, at, kind)?;
    Ok(None)
}

/// The type of a parameter, which may not be too deep.
fn within_depth(
    notes: &mut Notes<'_>,
    at: u32,
    made: Option<CType>,
) -> Result<Option<CType>, AllocError>
    ensures { Finds (spec.within_depth at made notes.old) result notes.new }
{
    match made {
        None => no_parameter(notes, at, Kind::BadType),
        Some(ty) => {
            if is_deep_at_most(notes.structs.as_slice(), MOST_DEPTH, &ty) {
                return Ok(Some(ty));
            }
            no_parameter(notes, at, Kind::BadType)
        }
    }
}

/// The type of a parameter, of which an array becomes a pointer.
fn parameter_type(
    alloc: Global,
    notes: &mut Notes<'_>,
    at: u32,
    ty: Option<DeclaredType>,
) -> Result<Option<CType>, AllocError>
    ensures { Finds (each ty (spec.parameter_type at) notes.old) result notes.new }
{
    match ty {
        None => Ok(None),
        Some(ty) => {
            let made = parameter_of(alloc, ty)?;
            within_depth(notes, at, made)
        }
    }
}

/// What the name of a parameter means in a declaration.
fn parameter_meaning(alloc: Global, ty: &Option<CType>) -> Result<NameMeaning, AllocError>
    ensures { IfOk result (λ r. r ≡ spec.parameter_meaning ty.now) }
{
    match ty {
        None => Ok(NameMeaning::Faulty),
        Some(ty) => {
            let ty = ty.copy(alloc)?;
            Ok(NameMeaning::Local { number: 0, ty })
        }
    }
}

/// Declares a parameter by its name.
fn named_parameter<'a>(
    alloc: Global,
    env: &mut Env<'a>,
    notes: &mut Notes<'a>,
    at: u32,
    name: &'a [u8],
    ty: Option<CType>,
) -> Result<Option<CType>, AllocError>
    ensures { Finds (spec.named_parameter at name.now ty (env.old, notes.old)) result (env.new, notes.new) }
{
    if stands_here(env, name) {
        return no_parameter(notes, at, Kind::Redeclared);
    }
    let meaning = parameter_meaning(alloc, &ty)?;
    declare(env, name, meaning)?;
    Ok(ty)
}

/// Declares a parameter, if it has a name.
fn declared_parameter<'a>(
    alloc: Global,
    env: &mut Env<'a>,
    notes: &mut Notes<'a>,
    at: u32,
    name: &'a Option<Name>,
    ty: Option<CType>,
) -> Result<Option<CType>, AllocError>
    ensures { Finds (spec.declared_parameter at name.now ty (env.old, notes.old)) result (env.new, notes.new) }
{
    match name {
        None => Ok(ty),
        Some(name) => named_parameter(alloc, env, notes, at, name.as_slice(), ty),
    }
}

/// A parameter of a type.
pub fn parameter_declared<'a>(
    alloc: Global,
    env: &mut Env<'a>,
    notes: &mut Notes<'a>,
    at: u32,
    name: &'a Option<Name>,
    ty: Option<DeclaredType>,
) -> Result<Option<CType>, AllocError>
    ensures { Finds (spec.parameter_declared at name.now ty (env.old, notes.old)) result (env.new, notes.new) }
{
    let ty = parameter_type(alloc, notes, at, ty)?;
    declared_parameter(alloc, env, notes, at, name, ty)
}
