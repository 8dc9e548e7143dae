//! The laws, each the contract of a function that does nothing.

ghost use Rattle.c_types.specs.Laws.{TypedUnitsAreLawful, TypedUnitsAreWithin};

/// The typed unit of a unit without faults is lawful, where its names are identifiers, its texts hold bytes, and its
/// parts can be counted.
pub fn typed_units_are_lawful()
    ensures { TypedUnitsAreLawful }
{}

/// The typed unit of a unit without faults is at most three times as high as its tree: of each node come at most three
/// that stand one under the other.
pub fn typed_units_are_within()
    ensures { TypedUnitsAreWithin }
{}
