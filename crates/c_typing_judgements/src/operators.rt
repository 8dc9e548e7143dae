//! Operators, by their operands.

ghost use Rattle.std.specs.Prelude.{◌≡◌, OnOk};
ghost use Rattle.c_typing_state.specs.Checks.{Finds, each, both_parts};
ghost use Rattle.c_typing_judgements.specs.Operators as spec;

use crate::c_typing_operators::{
    assign, binary, cast_to, conditional, size_of_type, subscript, unary,
};
use bk_containers::Seq;
use c_tree::{AssignOp, BinaryOp, StepOp, UnaryOp};
use c_typing_faults::Kind;
use c_typing_place_rules::members::size;
use c_typing_place_rules::places::step_behind;
use c_typing_primary_rules::commas::comma;
use c_typing_rules::c_typing_declared_types::DeclaredType;
use c_typing_rules::{LvalueKind, TypedExpression};
use c_typing_state::{Notes, note, note_fault, take_address};
use std::alloc::{AllocError, Global};

/// `&` takes the address of its operand; no other operator does.
fn take(notes: &mut Notes<'_>, op: UnaryOp, place: LvalueKind) -> Result<(), AllocError>
    ensures { OnOk result (notes.new ≡ spec.taken_by op place notes.old) }
{
    match op {
        UnaryOp::Address => take_address(notes, place),
        UnaryOp::Increment => Ok(()),
        UnaryOp::Decrement => Ok(()),
        UnaryOp::Dereference => Ok(()),
        UnaryOp::Plus => Ok(()),
        UnaryOp::Minus => Ok(()),
        UnaryOp::Invert => Ok(()),
        UnaryOp::Not => Ok(()),
    }
}

/// An operator in front of an operand without fault.
fn apply_prefix(
    alloc: Global,
    notes: &mut Notes<'_>,
    at: u32,
    op: UnaryOp,
    a: TypedExpression,
) -> Result<Option<TypedExpression>, AllocError>
    ensures { Finds (spec.apply_prefix at op a notes.old) result notes.new }
{
    let place = a.place;
    let ruling = unary(alloc, notes.structs.as_slice(), at, op, a);
    take(notes, op, place)?;
    note_fault(notes, ruling)
}

/// An operator in front of an operand.
pub fn in_front(
    alloc: Global,
    notes: &mut Notes<'_>,
    at: u32,
    op: UnaryOp,
    a: Option<TypedExpression>,
) -> Result<Option<TypedExpression>, AllocError>
    ensures { Finds (each a (spec.apply_prefix at op) notes.old) result notes.new }
{
    match a {
        None => Ok(None),
        Some(a) => apply_prefix(alloc, notes, at, op, a),
    }
}

/// An operator between two operands.
pub fn between(
    alloc: Global,
    notes: &mut Notes<'_>,
    at: u32,
    op: BinaryOp,
    a: Option<TypedExpression>,
    b: Option<TypedExpression>,
) -> Result<Option<TypedExpression>, AllocError>
    ensures { Finds (both_parts a b (spec.binary_check at op) notes.old) result notes.new }
{
    match a {
        None => Ok(None),
        Some(a) => match b {
            None => Ok(None),
            Some(b) => {
                let ruling = binary(alloc, notes.structs.as_slice(), at, op, a, b);
                note_fault(notes, ruling)
            }
        },
    }
}

/// An assignment.
pub fn assignment(
    alloc: Global,
    notes: &mut Notes<'_>,
    at: u32,
    op: AssignOp,
    a: Option<TypedExpression>,
    b: Option<TypedExpression>,
) -> Result<Option<TypedExpression>, AllocError>
    ensures { Finds (both_parts a b (spec.assignment_check at op) notes.old) result notes.new }
{
    match a {
        None => Ok(None),
        Some(a) => match b {
            None => Ok(None),
            Some(b) => {
                let ruling = assign(alloc, notes.structs.as_slice(), at, op, a, b);
                note_fault(notes, ruling)
            }
        },
    }
}

/// `a[b]`.
pub fn element(
    alloc: Global,
    notes: &mut Notes<'_>,
    at: u32,
    a: Option<TypedExpression>,
    b: Option<TypedExpression>,
) -> Result<Option<TypedExpression>, AllocError>
    ensures { Finds (both_parts a b (spec.subscript_check at) notes.old) result notes.new }
{
    match a {
        None => Ok(None),
        Some(a) => match b {
            None => Ok(None),
            Some(b) => {
                let ruling = subscript(alloc, notes.structs.as_slice(), at, a, b);
                note_fault(notes, ruling)
            }
        },
    }
}

/// Both arms of a choice, where its condition is without fault.
fn arms(
    alloc: Global,
    notes: &mut Notes<'_>,
    at: u32,
    c: TypedExpression,
    a: Option<TypedExpression>,
    b: Option<TypedExpression>,
) -> Result<Option<TypedExpression>, AllocError>
    ensures { Finds (both_parts a b (spec.choice_check at c) notes.old) result notes.new }
{
    match a {
        None => Ok(None),
        Some(a) => match b {
            None => Ok(None),
            Some(b) => {
                let ruling = conditional(alloc, at, c, a, b);
                note_fault(notes, ruling)
            }
        },
    }
}

/// `?:`.
pub fn choice(
    alloc: Global,
    notes: &mut Notes<'_>,
    at: u32,
    c: Option<TypedExpression>,
    a: Option<TypedExpression>,
    b: Option<TypedExpression>,
) -> Result<Option<TypedExpression>, AllocError>
    ensures { Finds (spec.choice_of_parts at c a b notes.old) result notes.new }
{
    match c {
        None => Ok(None),
        Some(c) => arms(alloc, notes, at, c, a, b),
    }
}

/// A cast.
pub fn cast(
    alloc: Global,
    notes: &mut Notes<'_>,
    at: u32,
    to: Option<DeclaredType>,
    a: Option<TypedExpression>,
) -> Result<Option<TypedExpression>, AllocError>
    ensures { Finds (both_parts to a (spec.cast_check at) notes.old) result notes.new }
{
    match to {
        None => Ok(None),
        Some(to) => match a {
            None => Ok(None),
            Some(a) => {
                let ruling = cast_to(alloc, at, to, a);
                note_fault(notes, ruling)
            }
        },
    }
}

/// `sizeof` of an expression.
pub fn size_of_value(
    alloc: Global,
    notes: &mut Notes<'_>,
    at: u32,
    a: Option<TypedExpression>,
) -> Result<Option<TypedExpression>, AllocError>
    ensures { Finds (each a (spec.size_of_value at) notes.old) result notes.new }
{
    match a {
        None => Ok(None),
        Some(a) => {
            let ruling = size(alloc, notes.structs.as_slice(), at, &a.ty);
            note_fault(notes, ruling)
        }
    }
}

/// `sizeof` of a type name.
pub fn size_of_name(
    alloc: Global,
    notes: &mut Notes<'_>,
    at: u32,
    of: Option<DeclaredType>,
) -> Result<Option<TypedExpression>, AllocError>
    ensures { Finds (each of (spec.size_of_name at) notes.old) result notes.new }
{
    match of {
        None => Ok(None),
        Some(of) => {
            let ruling = size_of_type(alloc, notes.structs.as_slice(), at, &of);
            note_fault(notes, ruling)
        }
    }
}

/// `++` or `--` behind an operand.
pub fn behind(
    alloc: Global,
    notes: &mut Notes<'_>,
    at: u32,
    op: StepOp,
    a: Option<TypedExpression>,
) -> Result<Option<TypedExpression>, AllocError>
    ensures { Finds (each a (spec.postfix_check at op) notes.old) result notes.new }
{
    match a {
        None => Ok(None),
        Some(a) => {
            let ruling = step_behind(alloc, notes.structs.as_slice(), at, op, a);
            note_fault(notes, ruling)
        }
    }
}

/// Whether there are two operands at least.
fn are_two_or_more(operands: &[TypedExpression]) -> bool
    ensures { result ≡ spec.are_two_or_more operands.now }
{
    match operands.split_first() {
        None => false,
        Some((_, rest)) => !rest.is_empty(),
    }
}

/// Operands of commas. Fewer than two, as no text has them, are a fault at the comma.
pub fn commas(
    alloc: Global,
    notes: &mut Notes<'_>,
    at: u32,
    operands: Option<Seq<TypedExpression>>,
) -> Result<Option<TypedExpression>, AllocError>
    ensures { Finds (spec.commas at operands notes.old) result notes.new }
{
    match operands {
        None => Ok(None),
        Some(operands) => {
            if are_two_or_more(operands.as_slice()) {
                Ok(Some(comma(alloc, at, operands)?))
            } else {
                note(notes, at, Kind::BadOperand)?;
                Ok(None)
            }
        }
    }
}
