//! The types of locals and parameters (C99 6.7, 6.7.5.3).

ghost use Rattle.c_typing_state.specs.Checks.{Finds, each};
ghost use Rattle.c_typing_judgements.specs.Types as types;
ghost use Rattle.c_typing_faults.specs.declared.faults.Kind.TheVariants.{BadType};
ghost use Rattle.c_typing_statement_parts.specs.c_typing_local_rules.Objects as spec;

use c_typed_tree::CType;
use c_typing_faults::Kind;
use c_typing_rules::c_typing_declared_types::{
    DeclaredType, MOST_DEPTH, is_deep_at_most, parameter_of,
};
use c_typing_state::{Notes, note};
use c_typing_struct_bodies::is_member;
use std::alloc::{AllocError, Global};

fn no_object(notes: &mut Notes<'_>, at: u32) -> Result<Option<CType>, AllocError>
    ensures { Finds (spec.no_object_type at notes.old) result notes.new }
{
    note(notes, at, Kind::BadType)?;
    Ok(None)
}

fn type_of_object(
    notes: &mut Notes<'_>,
    at: u32,
    ty: DeclaredType,
) -> Result<Option<CType>, AllocError>
    ensures { Finds (spec.object_type at ty notes.old) result notes.new }
{
    match ty {
        DeclaredType::Value(ty) => {
            if is_member(notes.structs.as_slice(), &ty) {
                return Ok(Some(ty));
            }
            no_object(notes, at)
        }
        DeclaredType::Unsized(_) => no_object(notes, at),
        DeclaredType::Function { .. } => no_object(notes, at),
    }
}

/// The type of a local. `at` is the place of its name.
pub(crate) fn object_type(
    notes: &mut Notes<'_>,
    at: u32,
    ty: Option<DeclaredType>,
) -> Result<Option<CType>, AllocError>
    ensures { Finds (each ty (spec.object_type at) notes.old) result notes.new }
{
    match ty {
        None => Ok(None),
        Some(ty) => type_of_object(notes, at, ty),
    }
}

fn no_parameter(notes: &mut Notes<'_>, at: u32) -> Result<Option<CType>, AllocError>
    ensures { Finds (types.no_parameter at BadType notes.old) result notes.new }
{
    note(notes, at, Kind::BadType)?;
    Ok(None)
}

fn within_depth(
    notes: &mut Notes<'_>,
    at: u32,
    made: Option<CType>,
) -> Result<Option<CType>, AllocError>
    ensures { Finds (types.within_depth at made notes.old) result notes.new }
{
    match made {
        None => no_parameter(notes, at),
        Some(ty) => {
            if is_deep_at_most(notes.structs.as_slice(), MOST_DEPTH, &ty) {
                return Ok(Some(ty));
            }
            no_parameter(notes, at)
        }
    }
}

/// The type of a parameter, of which an array becomes a pointer.
pub(crate) fn parameter_type(
    alloc: Global,
    notes: &mut Notes<'_>,
    at: u32,
    ty: Option<DeclaredType>,
) -> Result<Option<CType>, AllocError>
    ensures { Finds (each ty (types.parameter_type at) notes.old) result notes.new }
{
    match ty {
        None => Ok(None),
        Some(ty) => {
            let made = parameter_of(alloc, ty)?;
            within_depth(notes, at, made)
        }
    }
}
