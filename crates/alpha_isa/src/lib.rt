//! The Alpha machine: its instructions and their words, images, and what a step of the machine does.
//!
//! The machine is taken after the integer part of the Alpha Architecture Handbook. The table of
//! `docs/formats.md` says which instructions there are, and `specs/Step.antt` what each of them does.
#![tactic(auto)]

pub mod codes;
pub mod decode;
pub mod encode;
pub mod image;
pub mod insn;
pub mod laws;
pub mod limits;
