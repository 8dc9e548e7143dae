//! Enumeration constants (C99 6.7.2.2).

ghost use Rattle.std.specs.Prelude.{◌≡◌, OnOk, None};
ghost use Rattle.c_typing_state.specs.Checks.{Finds, each};
ghost use Rattle.c_typing_struct_bodies.specs.Enums as spec;
ghost use Rattle.c_typing_struct_bodies.specs.model.Parts as model;

use c_tree::{Constant, Expr};
use c_typing_constants::c_constant_rules::values::{given_value, next_value};
use c_typing_expressions::judge;
use c_typing_faults::Kind;
use c_typing_rules::TypedExpression;
use c_typing_state::{Env, NameMeaning, Notes, declare, note, note_fault, stands_here};
use std::alloc::{AllocError, Global};

/// The value of a constant without an expression.
fn value_behind(
    notes: &mut Notes<'_>,
    at: u32,
    before: Option<Option<u64>>,
) -> Result<Option<u64>, AllocError>
    ensures { Finds (spec.value_behind at before notes.old) result notes.new }
{
    match before {
        None => Ok(Some(0)),
        Some(before) => match before {
            None => Ok(None),
            Some(before) => {
                let ruling = next_value(at, before);
                note_fault(notes, ruling)
            }
        },
    }
}

/// The value that an expression gives.
fn explicit_value(
    notes: &mut Notes<'_>,
    a: Option<TypedExpression>,
) -> Result<Option<u64>, AllocError>
    ensures { Finds (each a spec.explicit_value notes.old) result notes.new }
{
    match a {
        None => Ok(None),
        Some(a) => {
            let ruling = given_value(&a);
            note_fault(notes, ruling)
        }
    }
}

/// The value of a constant, behind the one before it, if there is one.
fn constant_value<'a>(
    alloc: Global,
    env: &mut Env<'a>,
    notes: &mut Notes<'a>,
    at: u32,
    value: &'a Option<Expr>,
    before: Option<Option<u64>>,
) -> Result<Option<u64>, AllocError>
    ensures { Finds (model.constant_value at value.now before (env.old, notes.old)) result (env.new, notes.new) }
{
    match value {
        None => value_behind(notes, at, before),
        Some(e) => {
            let a = judge(alloc, e, env, notes)?;
            explicit_value(notes, a)
        }
    }
}

fn constant_meaning(value: Option<u64>) -> NameMeaning
    ensures { result ≡ spec.constant_meaning value }
{
    match value {
        None => NameMeaning::Faulty,
        Some(word) => NameMeaning::Constant(word),
    }
}

/// Declares a constant, unless its name stands in the scope.
fn declare_constant<'a>(
    env: &mut Env<'a>,
    notes: &mut Notes<'a>,
    at: u32,
    name: &'a [u8],
    value: Option<u64>,
) -> Result<(), AllocError>
    ensures { OnOk result ((env.new, notes.new) ≡ spec.constant_declared at name.now value (env.old, notes.old)) }
{
    if stands_here(env, name) {
        return note(notes, at, Kind::Redeclared);
    }
    declare(env, name, constant_meaning(value))
}

/// Declares the constants of a body in their order.
pub(crate) fn constants<'a>(
    alloc: Global,
    list: &'a [Constant],
    env: &mut Env<'a>,
    notes: &mut Notes<'a>,
) -> Result<(), AllocError>
    ensures { OnOk result ((env.new, notes.new) ≡ model.constants list.now None (env.old, notes.old)) }
{
    let mut before = None;
    for c in list {
        let value = constant_value(alloc, env, notes, c.at, &c.value, before)?;
        declare_constant(env, notes, c.at, c.name.as_slice(), value)?;
        before = Some(value);
    }
    Ok(())
}
