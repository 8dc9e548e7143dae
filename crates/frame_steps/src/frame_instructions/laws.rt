//! Laws, each the contract of a function that does nothing.

ghost use Rattle.frame_steps.specs.frame_instructions.Laws.{FrameLoadsAreDone, FrameStoresAreDone, MovesAreDone, SetsAreDone, BranchesAreDone};
ghost use Rattle.frame_steps.specs.frame_instructions.OperationLaws.{OperationsAreDone, ExtensionsAreDone};
ghost use Rattle.frame_steps.specs.frame_instructions.FrameLaws.{ArgumentsAreWritten, ArgumentsAreRead, LocalsHaveAddresses, GlobalsHaveAddresses};

/// The machine loads and stores through pointers, moves words and pointers, and sets registers to numbers.
pub fn accesses_are_done()
    ensures loads { FrameLoadsAreDone }
    ensures stores { FrameStoresAreDone }
    ensures moves { MovesAreDone }
    ensures sets { SetsAreDone }
{}

/// The machine takes a branch where the test holds, and passes it where not.
pub fn branches_are_done()
    ensures { BranchesAreDone }
{}

/// The machine writes the arguments of the next call and reads its own, and has the addresses of objects.
pub fn frames_are_used()
    ensures written { ArgumentsAreWritten }
    ensures read { ArgumentsAreRead }
    ensures locals { LocalsHaveAddresses }
    ensures globals { GlobalsHaveAddresses }
{}

/// The machine does operations and sign extensions, or traps where they trap.
pub fn operations_are_done()
    ensures operations { OperationsAreDone }
    ensures extensions { ExtensionsAreDone }
{}
