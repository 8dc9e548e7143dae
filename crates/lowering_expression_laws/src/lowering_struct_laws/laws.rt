//! A law of the code of arrays and structs, the contract of a function that does nothing.

ghost use Rattle.lowering_expression_laws.specs.lowering_struct_laws.Laws.{StructsAndArraysMeet};

/// The code of an array that becomes a pointer, and of an assignment of a struct, does what these do, where that of
/// their parts does.
pub fn structs_and_arrays_meet()
    ensures { StructsAndArraysMeet }
{}
