//! The points of calls and returns: the transfers before them, and the way into the called function or back.

pub mod laws;
