//! The room on the stack: where it holds the rooms of the calls, each has its frame and a routine its scratch bytes.

pub mod laws;
