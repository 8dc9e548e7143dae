//! Laws of the code of units, each the contract of a function that does nothing.

ghost use Rattle.lowering_theorem.specs.lowering_unit_theorem.Laws.{CodeKeepsMeaning};

/// For every list of rooms, on every input of bytes and within every number of turns: where the run of a well typed
/// unit is defined, that of the code of its functions ends as it does, with the same output, input left, turns left and
/// peak, and in no other way.
pub fn code_keeps_meaning()
    ensures { CodeKeepsMeaning }
{}
