//! Laws of the code of all statements, each the contract of a function that does nothing.

ghost use Rattle.lowering_statement_laws.specs.lowering_statement_theorem.Laws.{BodiesMeet};

/// The code of the body of each function of a well typed unit does what the body does, at each level.
pub fn bodies_meet()
    ensures { BodiesMeet }
{}
