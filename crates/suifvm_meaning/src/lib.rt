//! The meaning of programs over virtual registers.
//!
//! `specs/Operations.antt` says what operators do with values, `specs/Effect.antt` what each instruction does, and
//! `specs/Behave.antt` how a program runs. A run is one of the machine over objects.
#![tactic(auto)]

pub mod answer;
pub mod laws;
