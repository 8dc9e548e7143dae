//! The laws that what judgements of expressions, type names and bodies of structs find is well typed, that the structs
//! stay lawful, and that nothing goes missing where no fault is noted.
#![tactic(auto)]

pub mod c_body_laws;
pub mod c_expression_laws;
pub mod c_found_laws;
pub mod c_judgement_laws;
pub mod c_note_laws;
pub mod c_struct_laws;
pub mod c_type_laws;
