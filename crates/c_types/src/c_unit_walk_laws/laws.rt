//! The laws, each the contract of a function that does nothing.

ghost use Rattle.c_types.specs.c_unit_walk_laws.Laws.{UnitsAreWalked, DeclaredTypesAreShaped};

/// A unit without faults takes only the steps of declarations without faults, with what each of them notes.
pub fn units_are_walked()
    ensures { UnitsAreWalked }
{}

/// The type of a declaration of a function gives nothing or a scalar, and takes scalars, where that holds of the
/// typedef names in scope.
pub fn declared_types_are_shaped()
    ensures { DeclaredTypesAreShaped }
{}
