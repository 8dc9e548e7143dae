//! Laws, each the contract of a function that does nothing.

ghost use Rattle.block_pass_laws.specs.ending_laws.Laws.{SameWalksKeepEndings};

/// Where a program over temporaries has one ending, and that is defined, one whose functions have the same walks has
/// the same, as passes over blocks give it.
pub fn same_walks_keep_endings()
    ensures { SameWalksKeepEndings }
{}
