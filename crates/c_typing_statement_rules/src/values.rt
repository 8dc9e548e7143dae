//! The expressions of statements (C99 6.8.3 to 6.8.6).

ghost use Rattle.std.specs.Prelude.{◌≡◌, IfOk};
ghost use Rattle.std.specs.Option.{option_map};
ghost use Rattle.c_typing_state.specs.Checks.{Finds, each, both_parts};
ghost use Rattle.c_typing_statement_rules.specs.Values as spec;

use bk_containers::Box;
use c_typed_tree::{CType, TExpr, TStmt};
use c_typing_faults::Kind;
use c_typing_judgements::c_typing_operators::take_value;
use c_typing_primary_rules::switches::{self, SwitchValue};
use c_typing_rules::conversions::decay;
use c_typing_rules::types::is_void;
use c_typing_rules::{TypedExpression, comparisons};
use c_typing_state::{Notes, note, note_fault};
use std::alloc::{AllocError, Global};

/// A condition.
pub fn condition(
    alloc: Global,
    notes: &mut Notes<'_>,
    a: Option<TypedExpression>,
) -> Result<Option<Box<TExpr>>, AllocError>
    ensures { Finds (each a spec.condition_check notes.old) result notes.new }
{
    match a {
        None => Ok(None),
        Some(a) => {
            let ruling = comparisons::condition(decay(alloc, a)?);
            note_fault(notes, ruling)
        }
    }
}

/// The operand of a `switch`.
pub fn switch_operand(
    alloc: Global,
    notes: &mut Notes<'_>,
    a: Option<TypedExpression>,
) -> Result<Option<SwitchValue>, AllocError>
    ensures { Finds (each a spec.switch_check notes.old) result notes.new }
{
    match a {
        None => Ok(None),
        Some(a) => {
            let value = decay(alloc, a)?;
            let ruling = switches::switch_operand(alloc, value);
            note_fault(notes, ruling)
        }
    }
}

/// An expression whose value is not used.
pub fn full_expression(
    alloc: Global,
    a: Option<TypedExpression>,
) -> Result<Option<Box<TExpr>>, AllocError>
    ensures { IfOk result (λ r. r ≡ option_map spec.full_expression a) }
{
    match a {
        None => Ok(None),
        Some(a) => {
            let value = decay(alloc, a)?;
            Ok(Some(value.tree))
        }
    }
}

fn bad_return(notes: &mut Notes<'_>, at: u32) -> Result<Option<TStmt>, AllocError>
    ensures { Finds (spec.bad_return at notes.old) result notes.new }
{
    note(notes, at, Kind::BadReturn)?;
    Ok(None)
}

fn return_of(value: Option<Box<TExpr>>) -> Option<TStmt>
    ensures { result ≡ spec.return_of value }
{
    match value {
        None => None,
        Some(value) => Some(TStmt::Return(Some(value))),
    }
}

/// A `return` with a value, in a function whose result has a type.
fn return_as(
    alloc: Global,
    notes: &mut Notes<'_>,
    at: u32,
    ty: &CType,
    a: TypedExpression,
) -> Result<Option<TStmt>, AllocError>
    ensures { Finds (spec.return_value at ty.now a notes.old) result notes.new }
{
    if is_void(ty) {
        return bad_return(notes, at);
    }
    let ruling = take_value(alloc, ty, a);
    let value = note_fault(notes, ruling)?;
    Ok(return_of(value))
}

/// A `return` with a value. `of` is the type of the function's result, where its declaration has no fault.
pub fn return_value(
    alloc: Global,
    notes: &mut Notes<'_>,
    at: u32,
    of: &Option<CType>,
    a: Option<TypedExpression>,
) -> Result<Option<TStmt>, AllocError>
    ensures { Finds (both_parts of.now a (spec.return_value at) notes.old) result notes.new }
{
    match of {
        None => Ok(None),
        Some(ty) => match a {
            None => Ok(None),
            Some(a) => return_as(alloc, notes, at, ty, a),
        },
    }
}

/// A `return` without a value.
pub fn return_nothing(
    notes: &mut Notes<'_>,
    at: u32,
    of: &Option<CType>,
) -> Result<Option<TStmt>, AllocError>
    ensures { Finds (each of.now (spec.return_nothing at) notes.old) result notes.new }
{
    match of {
        None => Ok(None),
        Some(ty) => {
            if is_void(ty) {
                return Ok(Some(TStmt::Return(None)));
            }
            bad_return(notes, at)
        }
    }
}
