//! Calls (C99 6.5.2.2).

ghost use Rattle.std.specs.Prelude.{◌≡◌, Some, [], IfOk};
ghost use Rattle.std.specs.Option.{option_copied};
ghost use Rattle.c_typing_state.specs.Checks.{Finds, each};
ghost use Rattle.c_typing_judgements.specs.Calls as spec;

use crate::c_typing_operators::take_value;
use crate::names::{faulty, use_of_undefined};
use bk_containers::{Box, Seq};
use c_typed_tree::{CType, Callee, TExpr};
use c_typing_faults::Kind;
use c_typing_primary_rules::calls::{call, count_arguments};
use c_typing_rules::TypedExpression;
use c_typing_state::{NameMeaning, Notes, append_part, note_fault};
use std::alloc::{AllocError, Global};

fn unbox(part: Option<Box<TExpr>>) -> Option<TExpr>
    ensures { result ≡ part }
{
    match part {
        None => None,
        Some(part) => Some(Box::into_inner(part)),
    }
}

/// An argument, converted to the type of its parameter.
fn argument(
    alloc: Global,
    notes: &mut Notes<'_>,
    parameter: &CType,
    a: TypedExpression,
) -> Result<Option<TExpr>, AllocError>
    ensures { Finds (spec.argument parameter.now a notes.old) result notes.new }
{
    let ruling = take_value(alloc, parameter, a);
    let part = note_fault(notes, ruling)?;
    Ok(unbox(part))
}

/// The arguments, converted to the types of the parameters.
fn convert_arguments(
    alloc: Global,
    notes: &mut Notes<'_>,
    parameters: &[CType],
    arguments: Seq<TypedExpression>,
) -> Result<Option<Seq<TExpr>>, AllocError>
    ensures { Finds (spec.convert_arguments parameters.now arguments (Some []) notes.old) result notes.new }
{
    let mut found = Some(Seq::new(alloc));
    let mut rest = Seq::into_vec(arguments).into_iter();
    for parameter in parameters {
        match rest.next() {
            None => return Ok(found),
            Some(a) => {
                let part = argument(alloc, notes, parameter, a)?;
                found = append_part(found, part)?;
            }
        }
    }
    Ok(found)
}

/// A call with arguments that were converted.
fn call_with(
    alloc: Global,
    at: u32,
    callee: Callee,
    of: &CType,
    arguments: Option<Seq<TExpr>>,
) -> Result<Option<TypedExpression>, AllocError>
    ensures { IfOk result (λ r. r ≡ spec.call_with at callee of.now arguments) }
{
    match arguments {
        None => Ok(None),
        Some(arguments) => Ok(Some(call(alloc, at, callee, of, arguments)?)),
    }
}

/// A call with as many arguments as parameters.
fn call_passing(
    alloc: Global,
    notes: &mut Notes<'_>,
    at: u32,
    callee: Callee,
    of: &CType,
    parameters: &[CType],
    arguments: Seq<TypedExpression>,
) -> Result<Option<TypedExpression>, AllocError>
    ensures { Finds (spec.call_passing at callee of.now parameters.now arguments notes.old) result notes.new }
{
    let found = convert_arguments(alloc, notes, parameters, arguments)?;
    call_with(alloc, at, callee, of, found)
}

/// A call of a function.
fn call_of(
    alloc: Global,
    notes: &mut Notes<'_>,
    at: u32,
    callee: Callee,
    of: &CType,
    parameters: &[CType],
    arguments: Seq<TypedExpression>,
) -> Result<Option<TypedExpression>, AllocError>
    ensures { Finds (spec.call_of at callee of.now parameters.now arguments notes.old) result notes.new }
{
    let ruling = count_arguments(at, parameters, arguments);
    match note_fault(notes, ruling)? {
        None => Ok(None),
        Some(arguments) => call_passing(alloc, notes, at, callee, of, parameters, arguments),
    }
}

/// A call of a function, where its arguments are without fault.
fn call_where(
    alloc: Global,
    notes: &mut Notes<'_>,
    at: u32,
    callee: Callee,
    of: &CType,
    parameters: &[CType],
    arguments: Option<Seq<TypedExpression>>,
) -> Result<Option<TypedExpression>, AllocError>
    ensures { Finds (each arguments (spec.call_of at callee of.now parameters.now) notes.old) result notes.new }
{
    match arguments {
        None => Ok(None),
        Some(arguments) => call_of(alloc, notes, at, callee, of, parameters, arguments),
    }
}

/// A call of what a name means.
pub fn call_by_meaning(
    alloc: Global,
    notes: &mut Notes<'_>,
    at: u32,
    meaning: Option<&NameMeaning>,
    arguments: Option<Seq<TypedExpression>>,
) -> Result<Option<TypedExpression>, AllocError>
    ensures { Finds (spec.call_by_meaning at (option_copied meaning.entry) arguments notes.old) result notes.new }
{
    match meaning {
        None => faulty(notes, at, Kind::UnknownName),
        Some(meaning) => match meaning {
            NameMeaning::Faulty => Ok(None),
            NameMeaning::Undefined(number) => use_of_undefined(notes, at, *number),
            NameMeaning::Local { .. } => faulty(notes, at, Kind::NotFunction),
            NameMeaning::Object { .. } => faulty(notes, at, Kind::NotFunction),
            NameMeaning::Constant(_) => faulty(notes, at, Kind::NotFunction),
            NameMeaning::Function {
                callee,
                result,
                parameters,
            } => {
                let parameters = parameters.as_slice();
                call_where(alloc, notes, at, *callee, result, parameters, arguments)
            }
            NameMeaning::Typedef(_) => faulty(notes, at, Kind::NotFunction),
        },
    }
}
