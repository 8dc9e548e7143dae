//! Straight code over temporaries for the copy of an object.
//!
//! `specs/alpha_copies/Copies.antt` says the code, and `specs/alpha_copies/Laws.antt` what holds of it.

pub mod copies;
pub mod laws;
