//! A law of the code of `switch`, the contract of a function that does nothing.

ghost use Rattle.lowering_statement_laws.specs.lowering_switch_laws.Laws.{SwitchesMeet};

/// The code of a `switch` does what it does, where that of its parts does.
pub fn switches_meet()
    ensures { SwitchesMeet }
{}
