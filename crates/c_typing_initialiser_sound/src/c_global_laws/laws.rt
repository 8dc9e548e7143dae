//! The law, the contract of a function that does nothing.

ghost use Rattle.c_typing_initialiser_sound.specs.c_global_laws.Laws.{GlobalsAreThere, GlobalsAreLawful};

/// Each object with a name and each text is among the objects of static storage, at its number and with its size; and
/// these are lawful where the cells of those with names are, and each text holds bytes.
pub fn globals_are_lawful()
    ensures there { GlobalsAreThere }
    ensures lawful { GlobalsAreLawful }
{}
