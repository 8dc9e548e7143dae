//! Laws, each the contract of a function that does nothing.

ghost use Rattle.image_code_bounds.specs.frame_rooms.Laws.{FramesFitRooms};

/// The frame of a function with its temporaries in slots, and the bytes of a division routine below it, take no more
/// than the room of the function of the unit.
pub fn frames_fit_rooms()
    ensures { FramesFitRooms }
{}
