//! The lines of an assembly text, read and printed: each line that is printed is read again as the same thing,
//! and no other spelling is read.
//!
//! How each line is spelled stands in `specs/Lines.antt`, with the mnemonics in `specs/Mnemonics.antt`.
#![tactic(auto)]

mod cut;
pub mod data;
pub mod item;
mod mnemonic;
mod number;
mod operand;
pub mod print;
