//! The bodies of functions: what each is judged to be, with its typed tree, and every fault that is in it (C99 6.9.1).

mod functions;

pub use functions::{FunctionType, function};
