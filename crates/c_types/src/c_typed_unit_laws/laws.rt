//! The law, the contract of a function that does nothing.

ghost use Rattle.c_types.specs.c_typed_unit_laws.Laws.{MadeUnitsAreTyped};

/// The typed unit that is made of a unit without faults is well typed, where its names are identifiers, its texts hold
/// bytes, and its parts can be counted.
pub fn made_units_are_lawful()
    ensures { MadeUnitsAreTyped }
{}
