//! The law, the contract of a function that does nothing.

ghost use Rattle.block_preparation_laws.specs.near_arguments.Near.{SelectedFunctionsAreNear};

/// The argument places that a selected function names are those of its own parameters and of the arguments of its
/// calls, and the size of the function that was given counts both.
pub fn selected_functions_are_near()
    ensures { SelectedFunctionsAreNear }
{}
