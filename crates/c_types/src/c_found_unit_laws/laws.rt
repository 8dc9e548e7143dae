//! The laws, each the contract of a function that does nothing.

ghost use Rattle.c_types.specs.c_found_unit_laws.Laws.{DeclaredTypesAreFound, UnitsTakeSteps, FunctionsAreKept};

/// The type of a declaration is found, unless a fault is noted in it or a use of what the unit never defines.
pub fn declarations_are_found()
    ensures { DeclaredTypesAreFound }
{}

/// A unit without faults takes only the steps of declarations without faults, and each function that it numbers has a
/// tree.
pub fn functions_are_kept()
    ensures steps { UnitsTakeSteps }
    ensures kept { FunctionsAreKept }
{}
