//! The law, the contract of a function that does nothing.

ghost use Rattle.c_typing_text_laws.specs.c_initialiser_byte_laws.Laws.{InitialisersHoldBytes};

/// The string literals that initialise the objects of a text stand for bytes.
pub fn initialisers_hold_bytes()
    ensures { InitialisersHoldBytes }
{}
