//! What the code of a form of expression does, where the code of its parts does what they do.
#![tactic(auto)]

pub mod laws;
pub mod lowering_access_laws;
pub mod lowering_assignment_laws;
pub mod lowering_builtin_laws;
pub mod lowering_call_laws;
pub mod lowering_change_laws;
pub mod lowering_constant_laws;
pub mod lowering_expression_theorem;
pub mod lowering_operand_laws;
pub mod lowering_place_laws;
pub mod lowering_pointer_laws;
pub mod lowering_struct_laws;
