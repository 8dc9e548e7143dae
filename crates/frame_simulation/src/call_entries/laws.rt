//! Laws, each the contract of a function that does nothing.

ghost use Rattle.frame_simulation.specs.call_entries.Entering.{CallsAreEntered};

/// The machine enters a function where its caller calls it.
pub fn calls_are_entered()
    ensures { CallsAreEntered }
{}
