//! Straight code over temporaries for what instructions over virtual registers do.
//!
//! `specs/alpha_forms/Straight.antt` says what straight code does to what a call holds, and `specs/alpha_forms/Registers.antt` what code has to
//! come to. `specs/alpha_forms/Constants.antt`, `specs/alpha_forms/Accesses.antt` and `specs/alpha_forms/Operations.antt` say the code, and
//! `specs/alpha_forms/Laws.antt` what holds of it.

pub mod accesses;
pub mod constants;
pub mod laws;
pub mod operations;
