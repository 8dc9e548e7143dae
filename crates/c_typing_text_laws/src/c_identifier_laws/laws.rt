//! The laws, each the contract of a function that does nothing.

ghost use Rattle.c_typing_text_laws.specs.c_identifier_laws.Laws.{NameTokensAreIdentifiers, DeclaredNamesAreIdentifiers};

/// The names among the tokens of a text are identifiers.
pub fn name_tokens_are_identifiers()
    ensures { NameTokensAreIdentifiers }
{}

/// The names that a text declares at file scope are identifiers.
pub fn declared_names_are_identifiers()
    ensures { DeclaredNamesAreIdentifiers }
{}
