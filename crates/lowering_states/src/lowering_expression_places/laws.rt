//! Laws of the code of expressions, each the contract of a function that does nothing.

ghost use Rattle.lowering_states.specs.lowering_expression_places.Laws.{ExpressionCodeIsLeft};

/// Behind the code of each expression and place stands the code that comes behind it.
pub fn code_is_left()
    ensures { ExpressionCodeIsLeft }
{}
