//! Whole assembly texts, printed and read. What is printed is read again as the same assembly, and a text
//! that is none is refused at its first wrong line.
//!
//! The text of an assembly stands in `specs/Texts.antt`, and which line of a text is wrong in
//! `specs/Wrong.antt`.
#![tactic(auto)]

mod bytes;
mod cursor;
pub mod fault;
mod items;
pub mod print;
pub mod read;
mod survey;
