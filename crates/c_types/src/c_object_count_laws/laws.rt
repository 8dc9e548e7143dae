//! The law, the contract of a function that does nothing.

ghost use Rattle.c_types.specs.c_object_count_laws.Laws.{ObjectsAreCounted};

/// A unit without faults has given numbers to as many objects as it defines.
pub fn objects_are_counted()
    ensures { ObjectsAreCounted }
{}
