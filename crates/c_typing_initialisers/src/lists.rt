//! Lists of initialisers.

ghost use Rattle.std.specs.Prelude.{◌≡◌};
ghost use Rattle.c_typing_state.specs.Checks.{Finds};
ghost use Rattle.c_typing_initialisers.specs.Initialisers as spec;

use crate::unfitting::no_place;
use c_typed_tree::CType;
use c_typing_faults::Kind;
use c_typing_initial_values::parts::is_aggregate;
use c_typing_state::Notes;
use std::alloc::AllocError;

/// What the items of a list are, beside the parts of what they initialise.
#[derive(Clone, Copy, Debug, PartialEq, Eq)]
pub enum InitialiserItems {
    /// One has a fault.
    Faulty,
    /// None has a fault, and there is a part for each.
    Fitting,
    /// None has a fault, but there are more than parts. The first of these begins at a place.
    TooMany(u32),
}

/// One item more that initialises a part, by its place, if it has no fault.
pub(crate) fn with_item(found: InitialiserItems, place: Option<u32>) -> InitialiserItems
    ensures { result ≡ spec.with_item found place }
{
    match found {
        InitialiserItems::Faulty => InitialiserItems::Faulty,
        InitialiserItems::Fitting => match place {
            None => InitialiserItems::Faulty,
            Some(_) => InitialiserItems::Fitting,
        },
        InitialiserItems::TooMany(first) => match place {
            None => InitialiserItems::Faulty,
            Some(_) => InitialiserItems::TooMany(first),
        },
    }
}

/// One item more, for which there is no part.
pub(crate) fn with_surplus(found: InitialiserItems, place: Option<u32>) -> InitialiserItems
    ensures { result ≡ spec.with_surplus found place }
{
    match found {
        InitialiserItems::Faulty => InitialiserItems::Faulty,
        InitialiserItems::Fitting => match place {
            None => InitialiserItems::Faulty,
            Some(at) => InitialiserItems::TooMany(at),
        },
        InitialiserItems::TooMany(first) => match place {
            None => InitialiserItems::Faulty,
            Some(_) => InitialiserItems::TooMany(first),
        },
    }
}

fn list_of(
    notes: &mut Notes<'_>,
    brace: u32,
    found: InitialiserItems,
) -> Result<Option<u32>, AllocError>
    ensures { Finds (spec.list_of brace found notes.old) result notes.new }
{
    match found {
        InitialiserItems::Faulty => Ok(None),
        InitialiserItems::Fitting => Ok(Some(brace)),
        InitialiserItems::TooMany(first) => no_place(notes, Kind::BadInit, first),
    }
}

fn scalar_list(
    notes: &mut Notes<'_>,
    brace: u32,
    found: InitialiserItems,
) -> Result<Option<u32>, AllocError>
    ensures { Finds (spec.scalar_list brace found notes.old) result notes.new }
{
    match found {
        InitialiserItems::Faulty => Ok(None),
        InitialiserItems::Fitting => no_place(notes, Kind::BadInit, brace),
        InitialiserItems::TooMany(_) => no_place(notes, Kind::BadInit, brace),
    }
}

/// A list for a type, which begins at its brace.
pub(crate) fn list_in(
    notes: &mut Notes<'_>,
    ty: &CType,
    brace: u32,
    found: InitialiserItems,
) -> Result<Option<u32>, AllocError>
    ensures { Finds (spec.list_in ty.now brace found notes.old) result notes.new }
{
    if is_aggregate(ty) {
        return list_of(notes, brace, found);
    }
    scalar_list(notes, brace, found)
}
