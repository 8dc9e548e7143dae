//! Laws, each the contract of a function that does nothing.

ghost use Rattle.compiler_theorem.specs.RefinedCode.{RefinedUnitsHaveCode, BehavioursAreRefined};

/// Code that runs as a unit does, which refines another one, does what the other one does wherever that is defined, with
/// a peak that is not above: for every list of rooms, on every input of bytes and within every number of turns.
pub fn refined_units_have_code()
    ensures { RefinedUnitsHaveCode }
{}

/// The same in terms of behaviours: what a program does that refines a unit is what the unit does, with a peak that is
/// not above.
pub fn behaviours_are_refined()
    ensures { BehavioursAreRefined }
{}
