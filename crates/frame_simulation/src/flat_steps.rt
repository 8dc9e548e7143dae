//! The steps of a run over registers and slots, each of which the machine follows in its flat bytes.

pub mod laws;
