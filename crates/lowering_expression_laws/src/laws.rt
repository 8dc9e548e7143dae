//! Laws of the code of expressions, each the contract of a function that does nothing.

ghost use Rattle.lowering_expression_laws.specs.Laws.{FormsMeet};

/// The code of these forms of expression does what they do, where that of their parts does.
pub fn forms_meet()
    ensures { FormsMeet }
{}
