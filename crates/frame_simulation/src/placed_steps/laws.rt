//! Laws, each the contract of a function that does nothing.

ghost use Rattle.frame_simulation.specs.placed_steps.Points.{PointsAreDone};

/// The machine does at a point what its site over registers and slots does, and keeps the stack of the run.
pub fn points_are_done()
    ensures { PointsAreDone }
{}
