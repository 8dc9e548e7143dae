//! Single values.

ghost use Rattle.std.specs.Prelude.{◌≡◌, OnOk};
ghost use Rattle.std.specs.Option.{option_map};
ghost use Rattle.c_typing_judgements.specs.Texts.{spelling_bytes};
ghost use Rattle.c_typing_state.specs.Checks.{Finds};
ghost use Rattle.c_typing_initialisers.specs.Values as spec;

use crate::unfitting::no_place;
use bk_containers::Name;
use c_tree::Expr;
use c_typed_tree::CType;
use c_typed_tree::layout::integer_of;
use c_typing_expressions::judge;
use c_typing_faults::Kind;
use c_typing_initial_values::cells::{put_text, put_value};
use c_typing_initial_values::parts::{is_aggregate, is_room_for, room_of};
use c_typing_initial_values::values::{InitialValue, initial_value};
use c_typing_judgements::c_typing_operators::take_value;
use c_typing_judgements::texts::bytes_of;
use c_typing_rules::TypedExpression;
use c_typing_rules::conversions::decay;
use c_typing_state::{Env, Notes, note_fault};
use mem_objects::DataCell;
use std::alloc::{AllocError, Global};

/// The constant that a value is.
fn constant_value(
    notes: &mut Notes<'_>,
    a: &TypedExpression,
) -> Result<Option<InitialValue>, AllocError>
    ensures { Finds (spec.constant_value a.now notes.old) result notes.new }
{
    let ruling = initial_value(notes.structs.as_slice(), a);
    note_fault(notes, ruling)
}

/// Whether a value is converted to a type.
fn is_taken(
    alloc: Global,
    notes: &mut Notes<'_>,
    ty: &CType,
    a: TypedExpression,
) -> Result<bool, AllocError>
    ensures { Finds (spec.is_taken ty.now a notes.old) result notes.new }
{
    let ruling = take_value(alloc, ty, a);
    let tree = note_fault(notes, ruling)?;
    Ok(tree.is_some())
}

/// Fills a scalar, where its value is a constant and is converted to its type.
fn put_scalar(
    cells: &mut Vec<DataCell>,
    ty: &CType,
    place: u64,
    at: u32,
    value: Option<InitialValue>,
    is_taken: bool,
) -> Result<Option<u32>, AllocError>
    ensures { Finds (spec.put_scalar ty.now place at value is_taken cells.old.items) result cells.new.items }
{
    match value {
        None => Ok(None),
        Some(value) => {
            if is_taken {
                put_value(cells, place, integer_of(ty), value)?;
                return Ok(Some(at));
            }
            Ok(None)
        }
    }
}

/// A value of a scalar, of which an array is a pointer already.
fn scalar_value(
    alloc: Global,
    cells: &mut Vec<DataCell>,
    notes: &mut Notes<'_>,
    ty: &CType,
    place: u64,
    a: TypedExpression,
) -> Result<Option<u32>, AllocError>
    ensures { Finds (spec.scalar_value ty.now place a (cells.old.items, notes.old)) result (cells.new.items, notes.new) }
{
    let at = a.at;
    let value = constant_value(notes, &a)?;
    let is_taken = is_taken(alloc, notes, ty, a)?;
    put_scalar(cells, ty, place, at, value, is_taken)
}

fn value_of(
    alloc: Global,
    cells: &mut Vec<DataCell>,
    notes: &mut Notes<'_>,
    ty: &CType,
    place: u64,
    a: TypedExpression,
) -> Result<Option<u32>, AllocError>
    ensures { Finds (spec.fill_value ty.now place a (cells.old.items, notes.old)) result (cells.new.items, notes.new) }
{
    if is_aggregate(ty) {
        return no_place(notes, Kind::BadInit, a.at);
    }
    let value = decay(alloc, a)?;
    scalar_value(alloc, cells, notes, ty, place, value)
}

/// A value that is no text of characters.
fn expression_value<'a>(
    alloc: Global,
    cells: &mut Vec<DataCell>,
    env: &mut Env<'a>,
    notes: &mut Notes<'a>,
    ty: &CType,
    place: u64,
    e: &'a Expr,
) -> Result<Option<u32>, AllocError>
    ensures { Finds (spec.expression_value ty.now place e.now (cells.old.items, (env.old, notes.old)))
        result (cells.new.items, (env.new, notes.new)) }
{
    match judge(alloc, e, env, notes)? {
        None => Ok(None),
        Some(a) => value_of(alloc, cells, notes, ty, place, a),
    }
}

/// A text as it is spelled, if an expression is one.
#[tactic(auto, unfolding(crate::specs::model::Opens::opens))]
pub(crate) fn text_in(e: &Expr) -> Option<(u32, &[Name])>
    ensures { option_map (λ t. (t.0, t.1.now)) result ≡ spec.text_in e.now }
{
    match e {
        Expr::Text { at, spellings } => Some((*at, spellings.as_slice())),
        Expr::Name { .. } => None,
        Expr::Number { .. } => None,
        Expr::Character { .. } => None,
        Expr::Call { .. } => None,
        Expr::Unary { .. } => None,
        Expr::Binary { .. } => None,
        Expr::Assign { .. } => None,
        Expr::Conditional { .. } => None,
        Expr::Cast { .. } => None,
        Expr::SizeOfValue { .. } => None,
        Expr::SizeOfType { .. } => None,
        Expr::Index { .. } => None,
        Expr::Field { .. } => None,
        Expr::Arrow { .. } => None,
        Expr::Postfix { .. } => None,
        Expr::Comma { .. } => None,
    }
}

/// A text in an array of characters of this length.
fn text_value(
    cells: &mut Vec<DataCell>,
    notes: &mut Notes<'_>,
    place: u64,
    room: u64,
    at: u32,
    bytes: &[u8],
) -> Result<Option<u32>, AllocError>
    ensures { Finds (spec.text_value place room at bytes.now (cells.old.items, notes.old)) result (cells.new.items, notes.new) }
{
    if is_room_for(room, bytes) {
        put_text(cells, place, room, bytes)?;
        return Ok(Some(at));
    }
    no_place(notes, Kind::BadInit, at)
}

/// A single value at a place of an object of a type.
pub(crate) fn single_value<'a>(
    alloc: Global,
    cells: &mut Vec<DataCell>,
    env: &mut Env<'a>,
    notes: &mut Notes<'a>,
    ty: &CType,
    place: u64,
    e: &'a Expr,
) -> Result<Option<u32>, AllocError>
    ensures { Finds (spec.single_value ty.now place e.now (cells.old.items, (env.old, notes.old)))
        result (cells.new.items, (env.new, notes.new)) }
{
    match room_of(ty) {
        None => expression_value(alloc, cells, env, notes, ty, place, e),
        Some(room) => match text_in(e) {
            None => expression_value(alloc, cells, env, notes, ty, place, e),
            Some((at, spellings)) => {
                let bytes = bytes_of(alloc, spellings)?;
                text_value(cells, notes, place, room, at, bytes.as_slice())
            }
        },
    }
}
