//! Laws, each the contract of a function that does nothing.

ghost use Rattle.frame_simulation.specs.call_steps.Calls.{CallsAreDone, ReturnsAreDone, LastReturnsAreDone};

/// The machine calls a function and returns from it where the sites of a call and of a return stand.
pub fn calls_are_done()
    ensures calls { CallsAreDone }
    ensures back { ReturnsAreDone }
    ensures ends { LastReturnsAreDone }
{}
