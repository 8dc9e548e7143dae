//! Laws, each the contract of a function that does nothing.

ghost use Rattle.block_coalescing.specs.Kept.{CoalescedFunctionsKeepShape, CoalescedProgramsKeepEndings};

/// A function with second versions of its blocks keeps what is owed of it, and is no larger.
pub fn coalesced_functions_keep_shape()
    ensures { CoalescedFunctionsKeepShape }
{}

/// Where a program has one ending, and that is defined, one with second versions of its functions has the same.
pub fn coalesced_programs_keep_endings()
    ensures { CoalescedProgramsKeepEndings }
{
    alloc_model::laws::only_these_trap();
}
