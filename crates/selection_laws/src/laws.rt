//! The laws of selection, each the contract of a function that does nothing.

ghost use Rattle.selection_laws.specs.Laws.{SelectedPrograms};

/// A selected program has the endings of the program, unless they are Undefined, and no others.
pub fn selection_keeps_the_meaning()
    ensures { SelectedPrograms }
{}
