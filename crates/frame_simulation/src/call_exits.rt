//! A call is left: the machine comes behind the call and stands there for the caller, or ends the run behind the first
//! function.

pub mod laws;
