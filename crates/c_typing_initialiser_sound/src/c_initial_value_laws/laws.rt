//! The laws of initial values, each the contract of a function that does nothing.

ghost use Rattle.c_typing_initialiser_sound.specs.c_initial_value_laws.Laws.{AddressIsThere, ValueIsThere, ValueIsPut, TextIsPut};

/// An address constant of a well typed expression lies in an object that is there, or at its end.
pub fn addresses_are_there()
    ensures addresses { AddressIsThere }
    ensures values { ValueIsThere }
{}

/// A value and a text that are put behind lawful cells leave lawful ones, which go no further than they do.
pub fn cells_are_lawful()
    ensures values { ValueIsPut }
    ensures texts { TextIsPut }
{}
