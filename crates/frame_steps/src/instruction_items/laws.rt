//! Laws, each the contract of a function that does nothing.

ghost use Rattle.frame_steps.specs.instruction_items.Laws.{InstructionsAreDone};

/// The machine does each instruction that is no call, division or return: it writes, jumps, ends or traps as that does.
pub fn instructions_are_done()
    ensures { InstructionsAreDone }
{}
