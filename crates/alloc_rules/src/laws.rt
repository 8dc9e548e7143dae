//! What is judged of small allocations, each the contract of a function that does nothing.

ghost use Rattle.alloc_rules.specs.FrugalExamples.{FrugalExamples};
ghost use Rattle.alloc_rules.specs.Journal.{JournalsAreUnique};
ghost use Rattle.alloc_model.specs.Faithful.{Faithful};
ghost use Rattle.alloc_rules.specs.RightPlacements.{kept_over_call};
ghost use Rattle.alloc_rules.specs.Scan.{ListsAreUnique};
ghost use Rattle.alloc_rules.specs.WrongPlacements.{WrongPlacements};
ghost use Rattle.alloc_rules.specs.WrongReplays.{WrongReplays};

/// A small allocation is frugal, and one with a needless load is not.
pub fn small_allocations_are_frugal_or_not()
    ensures { FrugalExamples }
{}

/// Allocations of which each breaks a clause are not faithful.
pub fn wrong_placements_are_not_faithful()
    ensures placements { WrongPlacements }
    ensures replays { WrongReplays }
{}

/// What is said of the lists and sets that an allocator's passes hand on says which they are.
pub fn lists_are_unique()
    ensures { ListsAreUnique }
{}

/// An allocation has one journal.
pub fn journals_are_unique()
    ensures { JournalsAreUnique }
{}

/// An allocation with a loop is faithful in which a value stays in a register over a call.
pub fn a_loop_with_a_call_is_faithful()
    ensures { Faithful kept_over_call }
{}
