//! The laws, each the contract of a function that does nothing.

ghost use Rattle.block_preparation_laws.specs.selected_widths.Widths.{SelectedBlocksAreWithin, SelectedCallsAreNarrow};

/// The argument places that a block of a selected function writes are within the widest call of that block.
pub fn selected_blocks_are_within()
    ensures { SelectedBlocksAreWithin }
{}

/// The widest call of a selected function gives no more arguments than an instruction of the function that was given.
pub fn selected_calls_are_narrow()
    ensures { SelectedCallsAreNarrow }
{}
