//! Laws of what is noted, each the contract of a function that does nothing.

ghost use Rattle.c_typing_function_sound.specs.c_step_laws.Laws.{FunctionsTakeSteps, InitialisersTakeSteps, InitialisersAreJudgedBySteps};

/// The body of a function notes what expressions, specifiers and declarators note.
pub fn functions_take_steps()
    ensures { FunctionsTakeSteps }
{}

/// So does an initialiser, also one of what has a fault.
pub fn initialisers_take_steps()
    ensures cells { InitialisersTakeSteps }
    ensures parts { InitialisersAreJudgedBySteps }
{}
