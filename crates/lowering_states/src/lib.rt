//! Where the code of a function stands in its blocks, how a run over virtual registers goes on from a place, and how
//! the registers and the memory of a run correspond to those of the C meaning.
#![tactic(auto)]

pub mod laws;
pub mod lowering_expression_places;
pub mod lowering_object_laws;
pub mod lowering_values;
