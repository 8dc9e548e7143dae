//! The meaning of typed units of C.
//!
//! `specs/Evaluates.antt` has the meaning of expressions and `specs/Executes.antt` that of statements and calls, one
//! clause for each form; `specs/Behaves.antt` has the run of a unit. `specs/Reasons.antt` lists the points at which a
//! run is undefined. The laws and the examples are the contracts of functions that do nothing.
#![tactic(auto)]

pub mod examples;
pub mod laws;
