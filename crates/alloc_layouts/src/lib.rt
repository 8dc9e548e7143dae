//! The assembly of a program by what an allocator gives for its functions, of which there is one at a time: each
//! function is allocated, laid out, and let go before the next one.
#![tactic(auto)]

mod assemblies;
mod functions;

pub use assemblies::assemble_in_turn;
