//! The law of initialisers, the contract of a function that does nothing.

ghost use Rattle.c_typing_initialiser_sound.specs.c_initialiser_laws.Laws.{ObjectIsLawful, InitialiserLeaves};

/// The cells that an initialiser gives to an object are lawful in each lawful context that has the names in scope and
/// what was noted behind it, and there are no more of them than the object has bytes; and what an initialiser leaves.
pub fn initialisers_are_lawful()
    ensures cells { ObjectIsLawful }
    ensures leaves { InitialiserLeaves }
{}
