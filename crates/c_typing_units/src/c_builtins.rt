//! The built-in functions of a unit, declared before its first declaration: `putchar`, `getchar`, `abort` and `exit`
//! (C99 7.19.7.9, 7.19.7.6, 7.20.4.1, 7.20.4.3).

mod names;

pub use names::builtins;
