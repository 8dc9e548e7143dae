//! The law of the structs of a unit, the contract of a function that does nothing.

ghost use Rattle.c_types.specs.c_unit_struct_laws.Laws.{DeclarationsLeadOn, UnitIsWellDeclared};

/// Behind the declarations of a unit each struct is lawful among those that are there, tags name structs, and the
/// types of typedef names have parts that are there; and each declaration keeps that.
pub fn structs_of_units_are_lawful()
    ensures declarations { DeclarationsLeadOn }
    ensures units { UnitIsWellDeclared }
{}
