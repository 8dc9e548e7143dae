//! The laws, each the contract of a function that does nothing.

ghost use Rattle.c_types.specs.c_unit_meaning_laws.Laws.{NamesKeepMeanings, NamesHaveTypes, FunctionsAreNamed, UnitsHaveMain};

/// A name of file scope keeps what it means to the end of the unit, and its declarations have one type.
pub fn names_are_kept()
    ensures meanings { NamesKeepMeanings }
    ensures types { NamesHaveTypes }
{}

/// The name of each function whose tree was kept means the function with its number, and has its type; no other name
/// means that one; and there is a `main` of type `int (void)`.
pub fn functions_are_named()
    ensures named { FunctionsAreNamed }
    ensures main { UnitsHaveMain }
{}
