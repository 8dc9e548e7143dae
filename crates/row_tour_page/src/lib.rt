//! The pages that the program `tour` writes: `docs/tour.md`, a C program as each pass of a compiler shows it, and
//! `docs/second-chance.md`, what the default allocator does with a function that has more values than registers.
//!
//! The compiler is a parameter, so that what writes the pages is proved below it.
#![tactic(auto)]

mod beside;
mod calls;
mod chances;
mod events;
mod lines;
mod page;
mod passes;
mod scans;
mod section;
mod steps;
mod transfers;
mod words;

pub use chances::put_second_chances;
pub use page::put_page;
