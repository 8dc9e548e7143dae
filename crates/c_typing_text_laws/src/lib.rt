//! The laws that the names in a text are identifiers, and that its string literals stand for bytes.
#![tactic(auto)]

pub mod c_identifier_laws;
pub mod c_initialiser_byte_laws;
pub mod c_literal_byte_laws;
pub mod c_text_bytes;
