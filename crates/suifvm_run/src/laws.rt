//! The law of runs, as a function without code whose contract is the law.

ghost use Rattle.suifvm_run.specs.Laws.{ProgramsEnd};

/// Every run of a program ends, on every input and with however many turns: a jump that goes back takes a turn.
pub fn programs_end()
    ensures { ProgramsEnd }
{}
