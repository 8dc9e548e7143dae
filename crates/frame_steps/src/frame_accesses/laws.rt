//! Laws, each the contract of a function that does nothing.

ghost use Rattle.frame_steps.specs.frame_accesses.Laws.{FrameLoads, FrameStores, FrameAddresses, RegisterMoves};

/// The machine loads from its frame, stores to it, and has addresses in it, however far they are.
pub fn frames_are_reached()
    ensures loads { FrameLoads }
    ensures stores { FrameStores }
    ensures addresses { FrameAddresses }
{}

/// A register comes to hold what another one holds.
pub fn registers_are_moved()
    ensures { RegisterMoves }
{}
