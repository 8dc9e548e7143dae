//! The laws of structs, each the contract of a function that does nothing.

ghost use Rattle.c_typing_expression_sound.specs.c_struct_laws.Growth.{LawfulStructStays};
ghost use Rattle.c_typing_expression_sound.specs.c_struct_laws.Laws.{StructIsLawful, NewStructIsLawful};

/// The struct of a body is lawful where the context knows the structs that it was judged by, and a struct of which no
/// member is known is lawful.
pub fn structs_are_lawful()
    ensures complete { StructIsLawful }
    ensures incomplete { NewStructIsLawful }
{}

/// A struct that is lawful among structs stays so where those that are complete stay as they are and others come
/// behind.
pub fn lawful_structs_stay()
    ensures { LawfulStructStays }
{}
