//! Laws, each the contract of a function that does nothing.

ghost use Rattle.image_code_bounds.specs.program_rooms.Laws.{FunctionsHaveFrames, FramesFitTheirRooms};

/// The functions over temporaries of a unit have frames, where the unit is within the limits of weight and
/// data.
pub fn functions_have_frames()
    ensures { FunctionsHaveFrames }
{}

/// The frame of each, with the bytes of a division routine below it, fits the room of the function of the unit.
pub fn frames_fit_their_rooms()
    ensures { FramesFitTheirRooms }
{}
