//! Assembly as items: labels, names of functions, instructions, branches and addresses, with the data and
//! the places in it that hold addresses. What image they stand for is said by `specs/Words.antt`.
#![tactic(auto)]

pub mod asm;
pub mod final_fn;
pub mod item;
pub mod laws;
pub mod name;
