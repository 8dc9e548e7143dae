//! Laws, each the contract of a function that does nothing.

ghost use Rattle.image_theorem.specs.flat_starts.Starts.{StartsAreMatched};

/// From the start of an image the machine comes to where it stands for the start of the run.
pub fn starts_are_matched()
    ensures { StartsAreMatched }
{}
