//! Laws of the meaning, each the contract of a function that does nothing.

ghost use Rattle.alloc_model.specs.Examples.{TemporaryExamplesRun, PlacementsRun, sum_in_registers};
ghost use Rattle.alloc_model.specs.Faithful.{Faithful};
ghost use Rattle.alloc_model.specs.Lifetimes.{LifetimesAreUnique};
ghost use Rattle.alloc_model.specs.Laws.{OneEnding, MoreTurnsKeepEnding, MoreTurnsExtendOutput, PeaksRise, InstructionsKeepOutput, OnlyTheseTrap, AllocationKeepsRuns, AllocationKeeps};

/// A run has one ending at most, over temporaries and over registers and slots.
pub fn one_ending()
    ensures { OneEnding }
{}

/// More turns keep an ending.
pub fn turns_keep_endings()
    ensures { MoreTurnsKeepEnding }
{}

/// An output only grows, and the peak only rises.
pub fn runs_go_on()
    ensures output { MoreTurnsExtendOutput }
    ensures kept { InstructionsKeepOutput }
    ensures peak { PeaksRise }
{}

/// What traps is an instruction that may.
pub fn only_these_trap()
    ensures { OnlyTheseTrap }
{}

/// Where each function of a program has a faithful allocation, the program ends over registers and slots just as over
/// temporaries.
pub fn faithful_keeps_the_meaning()
    ensures runs { AllocationKeepsRuns }
    ensures programs { AllocationKeeps }
{}

/// Small programs end as they should.
pub fn examples_run()
    ensures { TemporaryExamplesRun }
{}

/// Small programs with allocations, right ones and wrong ones, end as they should.
pub fn placements_run()
    ensures { PlacementsRun }
{}

/// One of these allocations is faithful.
pub fn a_small_allocation_is_faithful()
    ensures { Faithful sum_in_registers }
{}

/// A temporary has one lifetime at most, and two of its parts are apart or the same.
pub fn lifetimes_are_unique()
    ensures { LifetimesAreUnique }
{}
