//! Whole runs over registers and slots, and the runs of the machine in its flat bytes: each ends as the other.

pub mod laws;
