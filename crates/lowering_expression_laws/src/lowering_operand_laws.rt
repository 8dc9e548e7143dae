//! What the code of commas, of `!`, and of conversions to void and between pointers does, where the code of their
//! operands does what they do.

pub mod laws;
