//! What an operation comes to.

/// What an operation comes to.
#[derive(Clone, Copy, Debug, PartialEq, Eq, Drop)]
pub enum ArithmeticOutcome {
    /// A value, by the word that holds it.
    Word(u64),
    /// A trap with its code: `DIVISION_BY_ZERO` or `OVERFLOW`.
    Trap(u64),
    /// The operation has no meaning: the count of a shift is negative or not below the width (C99 6.5.7).
    Undefined,
}

/// The code of the trap for a division by zero, or a remainder (C99 6.5.5).
pub const DIVISION_BY_ZERO: u64 = 1;

/// The code of the trap for a signed result that is no value of its type (C99 6.5, paragraph 5).
pub const OVERFLOW: u64 = 3;
