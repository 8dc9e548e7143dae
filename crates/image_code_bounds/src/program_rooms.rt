//! That the functions of a unit have frames behind the passes, and that these fit its rooms.

pub mod laws;
