//! Laws of the code of blocks and declarations, each the contract of a function that does nothing.

ghost use Rattle.lowering_statement_laws.specs.lowering_declaration_laws.Laws.{DeclarationsMeet, DeclaringForLoopsMeet};

/// The code of blocks and declarations does what they do, where that of their parts does.
pub fn declarations_meet()
    ensures { DeclarationsMeet }
{}

/// The code of a `for` that declares does what it does at each level, where that of its parts does.
pub fn declaring_for_loops_meet()
    ensures { DeclaringForLoopsMeet }
{}
