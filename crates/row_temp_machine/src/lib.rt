//! A machine that runs programs over temporaries, or over the registers and slots of allocations, in a memory of bytes.
//!
//! It is made for tables of examples: what it does follows the definitions of runs (`alloc_model`), and is not proved
//! to be that. A pointer is a place in its memory, so it finds nothing wrong where a pointer leaves its object for
//! another one.
#![tactic(auto)]

mod flat;
mod frame;
pub mod machine;
mod memory;
mod operation;
