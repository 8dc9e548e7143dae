//! Laws of the programs of units, each the contract of a function that does nothing.

ghost use Rattle.lowering_theorem.specs.Laws.{ProgramsKeepMeaning, BehavioursAreKept};

/// A program whose functions are the code of those of a well typed unit, and whose objects are the unit's, as `lower`
/// gives it, ends as the unit does, for every list of rooms, on every input of bytes and within every number of turns,
/// where that is defined: with the same output, input left, turns left and peak, and in no other way.
pub fn programs_keep_meaning()
    ensures { ProgramsKeepMeaning }
{}

/// The same in terms of behaviours: what a program does that runs as a unit is what the unit does, with the same peak.
pub fn behaviours_are_kept()
    ensures { BehavioursAreKept }
{}
