//! The law, the contract of a function that does nothing.

ghost use Rattle.c_typing_function_sound.specs.c_typing_height_laws.c_statement_height_laws.Laws.{FunctionsAreWithin};

/// A typed function is at most three times as high as the tree of its definition.
pub fn functions_are_within()
    ensures { FunctionsAreWithin }
{}
