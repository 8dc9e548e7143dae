//! The laws of what was noted, and of bodies, each the contract of a function that does nothing.

ghost use Rattle.c_typing_expression_sound.specs.c_body_laws.Laws.{StepsKeep, NotedIsKnown, BodiesLead, DeclarationsFindTypes};

/// What is noted step by step keeps that structs are lawful and that tags name structs, and structs grow.
pub fn steps_keep()
    ensures { StepsKeep }
{}

/// A context whose structs have grown from those of the notes has what was noted.
pub fn noted_is_known()
    ensures { NotedIsKnown }
{}

/// So do bodies of structs and enums, and the type of a declaration with them has parts that are there.
pub fn bodies_lead()
    ensures bodies { BodiesLead }
    ensures types { DeclarationsFindTypes }
{}
