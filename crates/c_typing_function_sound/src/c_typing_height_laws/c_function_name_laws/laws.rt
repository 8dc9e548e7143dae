//! The law, the contract of a function that does nothing.

ghost use Rattle.c_typing_function_sound.specs.c_typing_height_laws.c_function_name_laws.Laws.{FunctionsHaveDeclaredNames};

/// Each function of a unit has the name of a definition in its text.
pub fn functions_have_declared_names()
    ensures { FunctionsHaveDeclaredNames }
{}
