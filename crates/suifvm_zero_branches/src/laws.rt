//! The law, the contract of a function that does nothing.

ghost use Rattle.suifvm_zero_branches.specs.Tests.{TestsKeepRuns};

/// A run that ends with a meaning ends so too where branches test the values.
pub fn tests_keep_runs()
    ensures { TestsKeepRuns }
{}
