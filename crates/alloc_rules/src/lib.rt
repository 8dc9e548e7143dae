//! Rules of allocations beyond those that a right one keeps.
//!
//! `specs/Frugal.antt` has the seven rules of an allocation that moves no more than a scan with second chances does,
//! over what such a scan comes upon (`specs/Visits.antt`). Small allocations show what is judged: one that is frugal
//! and one that is not, and ones that break a clause of what is faithful. `specs/Journal.antt` says what the journal of
//! an allocation is, `specs/Lean.antt` when few transfers stand at each place, and `specs/Scan.antt` what the lists and
//! sets are that an allocator's passes hand on (`scan`).
//!
//! `specs/Allocations.antt` says what an allocation of a function is, whatever allocator makes it. An allocator is an
//! `Allocates`, and `allocate` is what it gives for the functions of a program.
#![tactic(auto)]

mod allocator;
pub mod laws;
pub mod scan;

pub use allocator::{Allocates, allocate};
