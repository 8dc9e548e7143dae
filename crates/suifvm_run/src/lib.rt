//! The interpreter of programs over virtual registers.
//!
//! The objects of static storage of a program are made, and a machine begins at `main`. Each step of it is one of the
//! meaning: most are done at once (`quick`), and any can be done whole, as `suifvm_machine` does it. `specs/Run.antt`
//! says what a run gives.
#![tactic(auto)]

pub mod ending;
pub mod laws;
mod quick;
pub mod run;

pub use ending::VmEnding;
pub use run::run_vm;
