//! The code of each statement of a well typed unit does what the statement does, where that of each function does what
//! the function does one level down.

pub mod laws;
