//! The laws, each the contract of a function that does nothing.

ghost use Rattle.selection_bounds.specs.selection_shapes.Shapes.{BlocksAreShaped, RegistersAreUsed, FunctionsAreSettled, SelectionKeepsMarks, SelectedNamesAreThere};

/// Targets are blocks other than the entry, what goes elsewhere stands last in its block, and nothing runs off the end.
pub fn blocks_are_shaped()
    ensures { BlocksAreShaped }
{}

/// The blocks name at most four temporaries more than the function has registers.
pub fn registers_are_used()
    ensures { RegistersAreUsed }
{}

/// Each fixed register that the blocks read as fixed was written as fixed before, in the same block.
pub fn functions_are_settled()
    ensures { FunctionsAreSettled }
{}

/// A jump back goes to a block that begins with a mark, where each of the function does.
pub fn marks_are_kept()
    ensures { SelectionKeepsMarks }
{}

/// What the blocks name is there, where what the function names is.
pub fn names_are_there()
    ensures { SelectedNamesAreThere }
{}
