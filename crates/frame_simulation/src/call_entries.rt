//! A call is entered: the machine comes to the first item of the called function, and stands there for that function,
//! with its arguments, its objects and its frame below those of the caller.

pub mod laws;
