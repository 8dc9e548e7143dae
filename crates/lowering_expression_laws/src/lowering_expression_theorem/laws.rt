//! The theorem on expressions, as the contracts of functions that do nothing.

ghost use Rattle.lowering_expression_laws.specs.lowering_expression_theorem.Laws.{ExpressionsMeet, MemoryPlacesMeet};

/// In a call of a function of a well typed unit, the code of each well typed expression does what the expression means,
/// where the code of each function of the unit does what that means one level down.
pub fn expressions_meet()
    ensures { ExpressionsMeet }
{}

/// The same of each place in memory: its code gives a pointer that stands for where the place is.
pub fn places_meet()
    ensures { MemoryPlacesMeet }
{}
