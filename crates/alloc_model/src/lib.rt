//! Where temporaries stand, and what instructions mean wherever that is.
//!
//! `specs/Effect.antt` says what each instruction does with what it reads, `specs/Temporaries.antt` how a program runs
//! over temporaries, and `specs/Places.antt` how it runs where each temporary stands in registers and slots. Both are
//! runs of the machine over objects. `specs/Faithful.antt` says when an allocation has each value where it is read,
//! over the slots that blocks rely on (`specs/Needs.antt`), and `specs/Lifetimes.antt` where a temporary is wanted.
#![tactic(auto)]

pub mod allocation;
pub mod laws;
