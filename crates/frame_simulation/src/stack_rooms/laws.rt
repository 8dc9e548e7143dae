//! Laws, each the contract of a function that does nothing.

ghost use Rattle.frame_simulation.specs.stack_rooms.Rooms.{FramesFillStack, ScratchIsThere, RoomIsThere};

/// The stack has room for frames and routines where it holds the rooms of the calls.
pub fn stacks_have_room()
    ensures frames { FramesFillStack }
    ensures scratch { ScratchIsThere }
    ensures room { RoomIsThere }
{}
