//! Laws, each the contract of a function that does nothing.

ghost use Rattle.frame_simulation.specs.division_calls.Divisions.{DivisionsAreDone};

/// The machine divides by its routines, or traps where the division does.
pub fn divisions_are_done()
    ensures { DivisionsAreDone }
{}
