//! The law, the contract of a function that does nothing.

ghost use Rattle.c_typing_text_laws.specs.c_literal_byte_laws.Laws.{TextsAreBytes};

/// A string literal that is spelled by bytes stands for bytes.
pub fn texts_are_bytes()
    ensures { TextsAreBytes }
{}
