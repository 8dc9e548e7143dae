//! The instructions that are no calls, on registers and frames: what each does with the contents of places, the machine
//! does at its items.

pub mod laws;
