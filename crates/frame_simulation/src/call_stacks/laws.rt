//! Laws, each the contract of a function that does nothing.

ghost use Rattle.frame_simulation.specs.call_stacks.Laws.{CallersStay, StacksStay};

/// Calls that wait keep their frames while another one goes on.
pub fn callers_stay()
    ensures callers { CallersStay }
    ensures stacks { StacksStay }
{}
