//! The laws, each the contract of a function that does nothing.

ghost use Rattle.c_types.specs.c_unit_object_laws.Laws.{WalksGoOn, NamesAreMeant, ObjectsAreNumbered};

/// Structs grow along declarations without faults and stay lawful, and texts come behind those that were noted; each
/// name of file scope means something whose types are lawful at the end of the unit.
pub fn names_are_meant()
    ensures walks { WalksGoOn }
    ensures meant { NamesAreMeant }
{}

/// An object that a name means stands at its number, with the type of its first declaration.
pub fn objects_are_numbered()
    ensures { ObjectsAreNumbered }
{}
