//! Alpha instructions over temporaries, the functions and programs that are made of them, and their text.
//!
//! A temporary is named by its number and may hold any value; which register or slot it stands in is not said here.
//! `specs/Insns.antt` says what each instruction reads, writes and goes to, `specs/Fixed.antt` which registers it
//! reads, writes and ends besides, `specs/Programs.antt` what every program keeps, and `specs/Text.antt` the text.
#![tactic(auto)]

pub mod copy;
pub mod insn;
pub mod operation;
pub mod program;
mod references;
mod text;
pub mod text_parts;
mod words;

pub use copy::copy_fn;
pub use text::temp_text;
