//! The assembler: the image of an assembly.
#![tactic(auto)]

pub mod assemble;
mod data;
mod ends;
mod far;
mod labels;
mod outermost;
mod sizes;
mod slack;
mod spans;
mod spread;
mod sums;
mod words;
