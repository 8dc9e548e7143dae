//! The law, the contract of a function that does nothing.

ghost use Rattle.c_typing_function_sound.specs.c_typing_height_laws.c_expression_height_laws.Laws.{ExpressionsAreWithin};

/// A typed expression, with the conversions of its value, is at most three times as high as the tree that it is of.
pub fn expressions_are_within()
    ensures { ExpressionsAreWithin }
{}
