//! Laws of the code of changes of places, each the contract of a function that does nothing.

ghost use Rattle.lowering_expression_laws.specs.lowering_change_laws.Laws.{RegistersAreChanged, MemoryIsChanged};

/// The code of a compound assignment to a scalar that a register holds, and of `++` and `--` of one, before it and
/// behind it, does what these do, where that of the right side does.
pub fn registers_are_changed()
    ensures { RegistersAreChanged }
{}

/// The same of a scalar in memory, where the code of its place does what that does.
pub fn memory_is_changed()
    ensures { MemoryIsChanged }
{}
