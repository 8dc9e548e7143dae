//! Laws, each the contract of a function that does nothing.

ghost use Rattle.block_pass_laws.specs.argument_laws.Kept.{ArgumentsAreKept, BlocksAreWithinFunctions};

/// Blocks with the contents of others name no other argument places, write them within the calls of their blocks where
/// the others do, and have no wider calls.
pub fn arguments_are_kept()
    ensures { ArgumentsAreKept }
{}

/// What is within the widest call of its block is within the widest call of its function.
pub fn blocks_are_within_functions()
    ensures { BlocksAreWithinFunctions }
{}
