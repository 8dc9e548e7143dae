//! Laws of the meaning, each the contract of a function that does nothing.

ghost use Rattle.suifvm_meaning.specs.Examples.{VmExamplesRun};
ghost use Rattle.suifvm_meaning.specs.Laws.{OneVmEnding, MoreTurnsKeepVmEnding, MoreTurnsExtendVmOutput, VmPeakRises, VmKeepsOutput, OnlyTheseVmInstructionsTrap};

/// A run has one ending at most.
pub fn one_ending()
    ensures { OneVmEnding }
{}

/// More turns keep an ending.
pub fn turns_keep_endings()
    ensures { MoreTurnsKeepVmEnding }
{}

/// An output only grows, and the peak only rises.
pub fn runs_go_on()
    ensures output { MoreTurnsExtendVmOutput }
    ensures kept { VmKeepsOutput }
    ensures peak { VmPeakRises }
{}

/// What traps is an instruction that may.
pub fn only_these_trap()
    ensures { OnlyTheseVmInstructionsTrap }
{}

/// Small programs end as they should.
pub fn examples_run()
    ensures { VmExamplesRun }
{}
