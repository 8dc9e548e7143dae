//! The laws, each the contract of a function that does nothing.

ghost use Rattle.selection_bounds.specs.selection_costs.Costs.{CodeIsShort, CodeCostsLittle};

/// The code of a function has as many blocks as the function, and a number of instructions that its size bounds.
pub fn code_is_short()
    ensures { CodeIsShort }
{}

/// The bulk of the code of a function, with all that splitting its edges may add, is at most the cost of the function.
pub fn code_costs_little()
    ensures { CodeCostsLittle }
{}
