//! The laws, each the contract of a function that does nothing.

ghost use Rattle.c_typing_function_sound.specs.c_found_statement_laws.Laws.{FunctionsAreFound};

/// A function whose declarator has no fault is found, unless a fault is noted in its body or a use of what the unit
/// never defines.
pub fn functions_are_found()
    ensures { FunctionsAreFound }
{}
