//! A law of the code of writes, the contract of a function that does nothing.

ghost use Rattle.lowering_expression_laws.specs.lowering_access_laws.Laws.{WritesMeet};

/// The store of a scalar, and the copy of a struct, do what the C meaning does at a place of memory.
pub fn writes_meet()
    ensures { WritesMeet }
{}
