//! Laws, each the contract of a function that does nothing.

ghost use Rattle.frame_simulation.specs.flat_steps.Matching.{StepsAreDone};

/// Where the machine stands for a run over registers and slots, it follows the next step of that.
pub fn steps_are_done()
    ensures { StepsAreDone }
{}
