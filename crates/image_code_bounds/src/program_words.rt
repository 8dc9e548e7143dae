//! That the text of a program's assembly has few words, by the weight of its unit.

pub mod laws;
