//! Laws of the code of calls, each the contract of a function that does nothing.

ghost use Rattle.lowering_expression_laws.specs.lowering_call_laws.Laws.{CallsMeet, CallsWithoutResultsMeet};

/// The code of a call of a function with a scalar result does what the call does, with its turn, its room and its
/// objects, where that of the arguments and of the function does.
pub fn calls_meet()
    ensures { CallsMeet }
{}

/// The same of a function without a result.
pub fn calls_without_results_meet()
    ensures { CallsWithoutResultsMeet }
{}
