//! Literals (C99 6.4.4, 6.4.5).

ghost use Rattle.std.specs.Prelude.{◌≡◌, IfOk};
ghost use Rattle.c_typing_state.specs.Checks.{Finds, note_fault};
ghost use Rattle.c_typing_primary_rules.specs.Primary as rules;
ghost use Rattle.c_typing_judgements.specs.Texts as spec;

use bk_containers::{Name, Seq};
use c_typing_faults::Kind;
use c_typing_literals::put_text;
use c_typing_primary_rules::primary::{character_constant, integer_constant, text};
use c_typing_rules::TypedExpression;
use c_typing_state::{Notes, note, note_fault, note_text};
use mem_objects::MOST_DATA;
use std::alloc::{AllocError, Global};

/// An integer constant.
pub fn integer(
    alloc: Global,
    notes: &mut Notes<'_>,
    at: u32,
    spelling: &[u8],
) -> Result<Option<TypedExpression>, AllocError>
    ensures { Finds (note_fault (rules.integer_constant at spelling.now) notes.old) result notes.new }
{
    let ruling = integer_constant(alloc, at, spelling);
    note_fault(notes, ruling)
}

/// A character constant.
pub fn character(
    alloc: Global,
    notes: &mut Notes<'_>,
    at: u32,
    spelling: &[u8],
) -> Result<Option<TypedExpression>, AllocError>
    ensures { Finds (note_fault (rules.character_constant at spelling.now) notes.old) result notes.new }
{
    let ruling = character_constant(alloc, at, spelling);
    note_fault(notes, ruling)
}

/// The bytes that string literals side by side stand for, with the zero at their end.
pub fn bytes_of(alloc: Global, spellings: &[Name]) -> Result<Seq<u8>, AllocError>
    ensures { IfOk result (λ r. r ≡ spec.spelling_bytes spellings.now) }
{
    let mut bytes = Vec::new(alloc);
    for spelling in spellings {
        put_text(&mut bytes, spelling.as_slice())?;
    }
    bytes.push(0)?;
    Ok(Seq::from_vec(bytes))
}

/// A text of these bytes, which is an object of its own. It is no larger than the data may be.
fn string_of(
    alloc: Global,
    notes: &mut Notes<'_>,
    at: u32,
    bytes: Seq<u8>,
) -> Result<Option<TypedExpression>, AllocError>
    ensures { Finds (spec.string_of at bytes notes.old) result notes.new }
{
    let length = bytes.len() as u64;
    if length <= MOST_DATA {
        let number = note_text(notes, bytes)?;
        Ok(Some(text(alloc, at, number, length)?))
    } else {
        note(notes, at, Kind::BadType)?;
        Ok(None)
    }
}

/// A text, which is an object of its own, from the literals that it is written as.
pub fn string(
    alloc: Global,
    notes: &mut Notes<'_>,
    at: u32,
    spellings: &[Name],
) -> Result<Option<TypedExpression>, AllocError>
    ensures { Finds (spec.string at spellings.now notes.old) result notes.new }
{
    let bytes = bytes_of(alloc, spellings)?;
    string_of(alloc, notes, at, bytes)
}
