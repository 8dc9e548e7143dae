//! The laws that the cells of initialisers are lawful, and that objects of static storage lie as a lawful unit asks.
#![tactic(auto)]

pub mod c_global_laws;
pub mod c_initial_value_laws;
pub mod c_initialiser_laws;
