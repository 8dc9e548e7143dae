//! Laws of the code of functions, each the contract of a function that does nothing.

ghost use Rattle.lowering_theorem.specs.lowering_function_laws.Laws.{FunctionsMeet, FunctionsWithoutTurnsMeet};

/// The code of a function does what the function does: its parameters have the values of the arguments, its objects
/// begin and end, and it returns what the body does, where the code of the body does what the body does.
pub fn functions_meet()
    ensures { FunctionsMeet }
{}

/// Where no turn is left there is no call, and nothing is asked of the code.
pub fn functions_without_turns_meet()
    ensures { FunctionsWithoutTurnsMeet }
{}
