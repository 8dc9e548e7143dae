//! The code over temporaries of each instruction, block and function over virtual registers.
//!
//! `specs/Instructions.antt` says what each instruction becomes, and `specs/Functions.antt` the blocks of a function.
#![tactic(auto)]

pub mod blocks;
pub mod calls;
pub mod instructions;
pub mod temporaries;
