//! Whether a typed unit can be counted: numbers of 32 bits name its structs, functions, objects and locals, and its
//! nodes are at most 2^40. No call takes memory.

mod units;

pub use units::can_be_counted;
