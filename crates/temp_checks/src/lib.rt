//! What is asked of functions over temporaries, as tests: for programs that tests write down.
#![tactic(auto)]

mod registers;
mod settled;

pub use settled::is_settled;
