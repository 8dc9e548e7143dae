//! The laws, each the contract of a function that does nothing.

ghost use Rattle.c_typing_expression_sound.specs.c_found_laws.Laws.{ExpressionsAreFound, SpecifiersAreFound, DeclaratorsAreFound};

/// Each expression, specifier and declarator that is judged is found, unless a fault is noted or a use of what the unit
/// never defines; and where none is, no name in scope and no member has a fault behind it, if none had before.
pub fn judgements_are_found()
    ensures expressions { ExpressionsAreFound }
    ensures specifiers { SpecifiersAreFound }
    ensures declarators { DeclaratorsAreFound }
{}
