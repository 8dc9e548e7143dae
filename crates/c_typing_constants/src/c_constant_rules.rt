//! Where constants are wanted: lengths of arrays, values of enumeration constants and of labels, and addresses in
//! initialisers of objects of static storage (C99 6.6, 6.7.2.2, 6.7.5.2, 6.8.4.2).
//!
//! A rule is given an expression without fault, and reads its value off the typed tree. No call takes memory.

pub mod addresses;
pub mod values;
