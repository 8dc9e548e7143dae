//! The nesting of a text: how deeply its constructs stand in one another.
//!
//! The nesting is a number of the tokens alone, whatever the grammar makes of them. It is defined on
//! lists of tokens in `specs/Nesting.antt`. [`tokens`] gives all tokens of a text, [`nesting_of`] the
//! nesting of tokens, and [`nest`] that of a text. [`open_constructs`] gives how many constructs of tokens
//! are open at once (`specs/OpenConstructs.antt`).
#![tactic(auto)]

mod fault;
mod nesting;
mod open;
mod scan;

pub use fault::ScanFault;
pub use nesting::{nest, nesting_of};
pub use open::open_constructs;
pub use scan::tokens;
