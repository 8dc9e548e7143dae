//! A law of the code of `for`, the contract of a function that does nothing.

ghost use Rattle.lowering_statement_laws.specs.lowering_for_laws.Laws.{ForLoopsMeet};

/// The code of a `for` without declarations does what it does at each level, where that of its parts does.
pub fn for_loops_meet()
    ensures { ForLoopsMeet }
{}
