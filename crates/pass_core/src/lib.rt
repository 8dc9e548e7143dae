//! What passes, instructions, blocks and functions are, whatever machine they are for.
//!
//! A pass keeps a relation between what it is given and what it makes; two passes one after the other keep what
//! lies between (`specs/Passes.antt`). An instruction says which registers it reads and writes, which blocks it may
//! go to, and whether what follows it may be done after it; its laws stand in `specs/Insns.antt`.
//! `specs/Functions.antt` says what every function keeps, and `specs/Live.antt` which registers are live.
#![tactic(auto)]

pub mod block;
pub mod function;
pub mod insn;
pub mod pass;
#[cfg(test)]
mod tests;

pub use insn::Insn;
pub use pass::{Pass, Then};
