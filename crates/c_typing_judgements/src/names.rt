//! Names as expressions (C99 6.5.1).

ghost use Rattle.std.specs.Option.{option_copied};
ghost use Rattle.c_typing_state.specs.Checks.{Finds};
ghost use Rattle.c_typing_judgements.specs.Names as spec;

use c_typing_faults::Kind;
use c_typing_primary_rules::primary::{enumeration_constant, local, object};
use c_typing_rules::TypedExpression;
use c_typing_state::{NameMeaning, Notes, note, note_use};
use std::alloc::{AllocError, Global};

/// A fault, in place of an expression.
pub(crate) fn faulty(
    notes: &mut Notes<'_>,
    at: u32,
    kind: Kind,
) -> Result<Option<TypedExpression>, AllocError>
    ensures { Finds (spec.name_fault at kind notes.old) result notes.new }
{
    note(notes, at, kind)?;
    Ok(None)
}

/// A use of what the unit never defines.
pub(crate) fn use_of_undefined(
    notes: &mut Notes<'_>,
    at: u32,
    number: u32,
) -> Result<Option<TypedExpression>, AllocError>
    ensures { Finds (spec.use_of_undefined at number notes.old) result notes.new }
{
    note_use(notes, number, at)?;
    Ok(None)
}

/// A name, by what it means.
pub fn name_of(
    alloc: Global,
    notes: &mut Notes<'_>,
    at: u32,
    meaning: Option<&NameMeaning>,
) -> Result<Option<TypedExpression>, AllocError>
    ensures { Finds (spec.name_of at (option_copied meaning.entry) notes.old) result notes.new }
{
    match meaning {
        None => faulty(notes, at, Kind::UnknownName),
        Some(meaning) => match meaning {
            NameMeaning::Faulty => Ok(None),
            NameMeaning::Undefined(number) => use_of_undefined(notes, at, *number),
            NameMeaning::Local { number, ty } => Ok(Some(local(alloc, at, *number, ty)?)),
            NameMeaning::Object { number, ty } => Ok(Some(object(alloc, at, *number, ty)?)),
            NameMeaning::Constant(word) => Ok(Some(enumeration_constant(alloc, at, *word)?)),
            NameMeaning::Function { .. } => faulty(notes, at, Kind::BadOperand),
            NameMeaning::Typedef(_) => faulty(notes, at, Kind::BadOperand),
        },
    }
}
