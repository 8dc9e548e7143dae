//! Laws of frames and items, each the contract of a function that does nothing.

ghost use Rattle.frame_bounds.specs.Rooms.{PlansFitRooms, FramesAreFew, FramesAreWhole, ObjectsAreAligned};
ghost use Rattle.frame_bounds.specs.Near.{NearPlansAreTheSame, NearShapesAreTheSame};
ghost use Rattle.frame_bounds.specs.Fronts.{ItemsStandInFront};

/// Where a function has at most seven temporaries for each unit of a weight, and sixteen more, and no call of more
/// arguments than that, its frame and the 32 bytes of a division routine fit the room of that weight and of its
/// objects. A frame has at most the bytes of its slots, of the arguments of the widest call and of its objects and 64
/// more, up to a multiple of 16, and is one; each object begins at a multiple of 8.
pub fn frames_fit_rooms()
    ensures rooms { PlansFitRooms }
    ensures few { FramesAreFew }
    ensures whole { FramesAreWhole }
    ensures aligned { ObjectsAreAligned }
{}

/// The items of a function that stand in front of no others, in front of some.
pub fn items_stand_in_front()
    ensures { ItemsStandInFront }
{}

/// Where no number of an argument place is greater than any run has, no such number is cut, and the frame is in any
/// case as if none were.
pub fn near_plans_are_the_same()
    ensures plans { NearPlansAreTheSame }
    ensures shapes { NearShapesAreTheSame }
{}
