//! The code of typed expressions over virtual registers: the walk that puts the pieces together.
//!
//! What the code of each expression is stands in `lowering_code`, and the pieces in `lowering_emitter`.
#![tactic(auto)]

mod forms;
mod places;
pub mod scope;
pub mod walk;

pub use forms::local_place;
pub use scope::LoweringScope;
pub use walk::{expr, place};
