//! Laws, each the contract of a function that does nothing.

ghost use Rattle.frame_steps.specs.function_items.Laws.{FunctionsStand};

/// The parts and blocks of each function stand behind their labels.
pub fn functions_stand()
    ensures { FunctionsStand }
{}
