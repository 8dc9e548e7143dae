//! Functions with a value in one of the registers 9 to 15 over a call.
//!
//! A called function keeps these registers (register usage of the Alpha calling standard), so one that writes such a
//! register has to save it. The plainest allocation gives none of them to a temporary; here each is used alone.

mod allocations;
mod registers;

pub use allocations::kept_over_call;
pub use registers::KeptRegister;
