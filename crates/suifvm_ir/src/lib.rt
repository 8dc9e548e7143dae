//! Instructions over virtual registers, the programs that are made of them, and their text.
//!
//! `specs/Insns.antt` says what each instruction reads, writes and goes to, `specs/Programs.antt` what every program
//! keeps, and `specs/Text.antt` the text, whose lines `specs/Lines.antt` gives for instructions of any kind.
#![tactic(auto)]

pub mod insn;
pub mod lines;
pub mod objects;
pub mod operands;
pub mod program;
pub mod references;
mod text;
pub mod text_parts;
pub mod types;
mod words;

pub use text::vm_text;
