//! Laws, each the contract of a function that does nothing.

ghost use Rattle.frame_simulation.specs.function_shapes.Shapes.{PlansFit};

/// The transfers and registers of a plan with the lists that it should have fit the frame of its function.
pub fn plans_fit()
    ensures { PlansFit }
{}
