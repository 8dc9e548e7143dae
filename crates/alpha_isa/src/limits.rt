//! The limits of images, of their runs and of branches, and where the text begins.

/// The most words of the text of an image.
pub const MOST_WORDS: u64 = 1 << 28;

/// The most bytes of the data of an image, with the zeros behind them.
pub const MOST_BYTES: u32 = 67_108_864;

/// The address of the first word of the text.
pub const TEXT_START: u64 = 65_536;

/// The least stack of a run, in bytes.
pub const LEAST_STACK: u64 = 4_096;

/// The greatest stack of a run, in bytes.
pub const MOST_STACK: u64 = 268_435_456;

/// A branch goes less than so many words past the next one, and at most so many before it: its displacement has 21
/// bits, in two's complement.
pub const BRANCH_REACH: u64 = 1 << 20;
