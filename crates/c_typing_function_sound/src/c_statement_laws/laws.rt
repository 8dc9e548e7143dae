//! The laws of functions, each the contract of a function that does nothing.

ghost use Rattle.c_typing_function_sound.specs.c_statement_laws.Laws.{FunctionIsTyped, FunctionLeaves};

/// A function that is found is well typed in each unit whose structs are lawful, that has the names in scope before the
/// body and what was noted behind it; and what a body leaves.
pub fn functions_are_typed()
    ensures typed { FunctionIsTyped }
    ensures leaves { FunctionLeaves }
{}
