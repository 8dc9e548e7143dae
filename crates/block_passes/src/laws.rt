//! Laws, each the contract of a function that does nothing.

ghost use Rattle.block_passes.specs.Keeps.{KeepsIsReflexive, KeepsIsTransitive};

/// A program keeps of itself what passes keep.
pub fn keeps_is_reflexive()
    ensures { KeepsIsReflexive }
{}

/// Passes one after the other keep what each of them keeps.
pub fn keeps_is_transitive()
    ensures { KeepsIsTransitive }
{}
