//! What instructions do with contents, and what the machine does with the words that stand for them.
//!
//! `specs/flat_operations/Contents.antt` says when a word stands for a content. The laws: an operation, a load, a store or a test that
//! has a meaning on contents does the same on their words, over bytes that stand for the memory of objects.

pub mod laws;
