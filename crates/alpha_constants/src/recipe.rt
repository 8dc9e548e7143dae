//! Recipes.

/// What is done last to make a word.
#[derive(Clone, Copy, Debug, PartialEq, Eq)]
pub enum Finish {
    /// Nothing: what the displacements make is the word.
    Nothing,
    /// A shift to the left by so many bits.
    ShiftLeft(u8),
    /// A shift to the right by so many bits, with zeros behind it.
    ShiftRight(u8),
    /// The low 32 bits stay, the others become zero.
    LowHalf,
    /// A shift to the left by 32 bits, and then the displacements of the number are added.
    AddLower(u64),
}

/// A way to make a word: first by the displacements of a number, of which only its low 32 bits tell, and then by a
/// finish.
#[derive(Clone, Copy, Debug, PartialEq, Eq)]
pub struct Recipe {
    pub near: u64,
    pub finish: Finish,
}
