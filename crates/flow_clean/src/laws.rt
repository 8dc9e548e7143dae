//! Laws, each the contract of a function that does nothing.

ghost use Rattle.flow_clean.specs.ChainRuns.{ChainsKeepRuns};
ghost use Rattle.flow_clean.specs.Copies.{ReadingOriginsKeepsRuns};
ghost use Rattle.flow_clean.specs.Dead.{CleaningKeepsRuns, NoneIsLeftDead, NoSumRises};
ghost use Rattle.flow_clean.specs.Programs.{CodeIsKeptAlong, CopiesKeepCode, CleaningKeepsCode};

/// A run that ends with a meaning ends so too where jumps go on past those that are only instructions.
pub fn chains_keep_runs()
    ensures { ChainsKeepRuns }
{}

/// A run that ends with a meaning ends so too where instructions read origins in place of copies.
pub fn origins_keep_runs()
    ensures { ReadingOriginsKeepsRuns }
{}

/// A run that ends with a meaning ends so too without the instructions whose writes nothing reads.
pub fn cleaning_keeps_runs()
    ensures { CleaningKeepsRuns }
{
    suifvm_meaning::laws::only_these_trap();
}

/// Where instructions are left out from the last one on, none is left that may be left out and whose write nothing reads
/// behind it.
pub fn none_is_dead()
    ensures { NoneIsLeftDead }
{}

/// Nothing that is summed over the instructions of a block rises where they are left out.
pub fn no_sum_rises()
    ensures { NoSumRises }
{}

/// What two passes keep of code, one after the other, both keep.
pub fn code_is_kept_along()
    ensures { CodeIsKeptAlong }
{}

/// A program whose instructions read no copies keeps what the code is of which it is made, and does all that it does.
pub fn copies_keep_code()
    ensures { CopiesKeepCode }
{}

/// So does a clean one.
pub fn cleaning_keeps_code()
    ensures { CleaningKeepsCode }
{
    suifvm_meaning::laws::only_these_trap();
}
