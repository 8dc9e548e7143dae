//! What an operation comes to.

use mem_model::value::Value;

/// What an operation on values comes to.
#[derive(Clone, Copy, Debug, PartialEq, Eq)]
pub enum Answer {
    /// A value.
    Gives(Value),
    /// A trap with a code.
    TrapsWith(u64),
    /// Nothing that has a meaning.
    Fails,
}
