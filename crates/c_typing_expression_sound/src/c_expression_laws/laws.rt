//! The laws of whole expressions and type names, each the contract of a function that does nothing.

ghost use Rattle.c_typing_expression_sound.specs.c_expression_laws.Laws.{ExpressionIsTyped, ExpressionWalks, TypeNameIsFit, DeclaratorGivesType};

/// What an expression is, is well typed in each lawful context that has the names in scope, the structs of the notes,
/// the locals whose address is taken in memory, and the texts.
pub fn expressions_are_typed()
    ensures typed { ExpressionIsTyped }
    ensures walks { ExpressionWalks }
{}

/// A type name gives a type that an expression may have, and a declarator makes one of the context of one.
pub fn type_names_are_fit()
    ensures names { TypeNameIsFit }
    ensures declarators { DeclaratorGivesType }
{}
