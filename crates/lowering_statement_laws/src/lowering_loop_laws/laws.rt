//! Laws of the code of loops, each the contract of a function that does nothing.

ghost use Rattle.lowering_statement_laws.specs.lowering_loop_laws.Laws.{LoopsMeet, DoLoopsMeet};

/// The code of a `while` does what it does at each level, where that of its parts does at each level.
pub fn loops_meet()
    ensures { LoopsMeet }
{}

/// So does that of a `do`.
pub fn do_loops_meet()
    ensures { DoLoopsMeet }
{}
