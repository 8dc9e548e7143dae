//! The machine on which code over objects runs, whatever its instructions are and wherever its values stand.
//!
//! `specs/Machine.antt` defines a code by the sites of its instructions, and its runs. The laws hold of every code.
#![tactic(auto)]

pub mod laws;
