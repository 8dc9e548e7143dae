//! What the code of a form of statement does, where the code of its parts does what they do.
#![tactic(auto)]

pub mod laws;
pub mod lowering_declaration_laws;
pub mod lowering_for_laws;
pub mod lowering_loop_laws;
pub mod lowering_statement_theorem;
pub mod lowering_switch_laws;
