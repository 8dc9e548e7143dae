//! The data of an image: the bytes of the objects of static storage, and the fixes by which they hold addresses.

pub mod laws;
