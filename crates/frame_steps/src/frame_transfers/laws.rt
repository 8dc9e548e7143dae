//! Laws, each the contract of a function that does nothing.

ghost use Rattle.frame_steps.specs.frame_transfers.Laws.{TransfersAreDone};

/// The machine does transfers on registers and slots, one behind the other.
pub fn transfers_are_done()
    ensures { TransfersAreDone }
{}
