//! Laws, each the contract of a function that does nothing.

ghost use Rattle.frame_simulation.specs.call_exits.Leaving.{CallsAreLeft, RunsAreEnded};

/// The machine leaves a function by its exit part.
pub fn calls_are_left()
    ensures calls { CallsAreLeft }
    ensures runs { RunsAreEnded }
{}
