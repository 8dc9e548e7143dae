//! The law, the contract of a function that does nothing.

ghost use Rattle.c_typing_function_sound.specs.c_signature_laws.Laws.{FunctionsHaveTheirTypes};

/// A function that is made of a body has the name of its declaration, and the result and the parameters that its
/// declarator gives.
pub fn functions_have_their_types()
    ensures { FunctionsHaveTheirTypes }
{}
