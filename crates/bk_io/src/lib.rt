//! The outside of the compiler: where bytes come from, where they go, and the files that a name stands for.
//!
//! Every layer above speaks of the outside through the traits of `outside`. The forms of `memory` tell
//! what they hold, so that a contract can say which bytes a call took or gave. The adapters of `host`
//! reach the system and tell nothing of its bytes.
#![tactic(auto)]

pub mod empty;
pub mod host;
pub mod memory;
pub mod outside;
#[cfg(test)]
mod tests;
