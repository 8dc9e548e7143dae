//! What is asked of an allocation whose function is laid out, as a test, for programs that tests write down. That it is
//! faithful is not tested.
#![tactic(auto)]

mod checks;
mod insns;
mod objects;

pub use checks::can_be_laid_out;
