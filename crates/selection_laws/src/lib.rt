//! That the selected code of a program keeps its meaning.
//!
//! `specs/Selected.antt` says when a program over temporaries is the selected one of a program over virtual registers,
//! and `specs/Laws.antt` that its runs end alike.
#![tactic(auto)]

pub mod laws;
