//! Laws, each the contract of a function that does nothing.

ghost use Rattle.frame_memory.specs.flat_globals.Globals.{LawfulOnesAreLaidOut, GlobalsStand, DataHasOwners};

/// Where the data of an image holds the objects of static storage, its bytes stand for them.
pub fn globals_stand()
    ensures laid_out { LawfulOnesAreLaidOut }
    ensures memory { GlobalsStand }
    ensures owners { DataHasOwners }
{}
