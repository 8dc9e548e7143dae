//! Laws, each the contract of a function that does nothing.

ghost use Rattle.frame_steps.specs.machine_bounds.Bounds.{RunsStayBounded};

/// Registers keep holding words, and memory and input bytes.
pub fn runs_stay_bounded()
    ensures { RunsStayBounded }
{}
