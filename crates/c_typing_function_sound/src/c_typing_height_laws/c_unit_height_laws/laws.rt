//! The law, the contract of a function that does nothing.

ghost use Rattle.c_typing_function_sound.specs.c_typing_height_laws.c_unit_height_laws.Laws.{FunctionsOfUnitsAreWithin};

/// Each typed function of a unit is at most three times as high as the tree of the unit.
pub fn functions_of_units_are_within()
    ensures { FunctionsOfUnitsAreWithin }
{}
