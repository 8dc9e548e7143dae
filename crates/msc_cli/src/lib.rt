//! The top call of the compiler: its words, and what each command writes.
#![tactic(auto)]

mod assemble;
pub mod laws;
pub mod top;
