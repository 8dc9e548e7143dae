//! Laws, each the contract of a function that does nothing.

ghost use Rattle.block_pass_laws.specs.temp_walk_laws.SameRuns.{SameTempWalksRunAlike};

/// Programs over temporaries whose functions have the same walks run alike.
pub fn same_walks_run_alike()
    ensures { SameTempWalksRunAlike }
{}
