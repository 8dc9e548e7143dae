//! The laws that functions are well typed, that their bodies declare each local once, that they have the names and types
//! of their declarations, and that they are at most three times as high as their trees.
#![tactic(auto)]

pub mod c_found_statement_laws;
pub mod c_local_laws;
pub mod c_signature_laws;
pub mod c_statement_laws;
pub mod c_statement_rule_laws;
pub mod c_step_laws;
pub mod c_typing_height_laws;
