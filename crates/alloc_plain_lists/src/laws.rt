//! Laws of runs, each the contract of a function that does nothing.

ghost use Rattle.alloc_plain_lists.specs.Runs.{PlainRuns};

/// Small programs end in slots as they end over temporaries.
pub fn plain_runs()
    ensures { PlainRuns }
{}
