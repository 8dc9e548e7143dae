//! The declarations at file scope of a unit, each with the body of its function where it has one (C99 6.7, 6.9).

mod walk;

pub use walk::externals;
