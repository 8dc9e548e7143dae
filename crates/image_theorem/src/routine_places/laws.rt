//! Laws, each the contract of a function that does nothing.

ghost use Rattle.image_theorem.specs.routine_places.Places.{AssembledRoutinesStand};

/// The division routines stand in the image of an assembly that has their items.
pub fn routines_stand()
    ensures { AssembledRoutinesStand }
{}
