//! A law of states that correspond, the contract of a function that does nothing.

ghost use Rattle.lowering_states.specs.lowering_object_laws.Laws.{ObjectsBeginAndEnd};

/// The object of a local begins, and ends where its scope is left: states still correspond, and the code does nothing.
pub fn objects_begin_and_end()
    ensures { ObjectsBeginAndEnd }
{}
