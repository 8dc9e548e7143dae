//! Laws of constants and of casts to void, each the contract of a function that does nothing.

ghost use Rattle.lowering_expression_laws.specs.lowering_constant_laws.Laws.{ConstantsAreGiven, ConstantsMeet};

/// An integer constant that is well typed gives its value in every state, and leaves the state as it is (C99 6.6).
pub fn constants_are_given()
    ensures { ConstantsAreGiven }
{}

/// The code of a conversion or a cast of what gives zero in every state to a pointer, and of a cast of a value of any
/// type to void, does what these do, where that of their operands does.
pub fn constants_meet()
    ensures { ConstantsMeet }
{}
