//! The items by which code reaches its frame: loads and stores at an offset from register 30, near or by way of
//! register 29, addresses, and moves of registers; and what the machine does at them.

pub mod laws;
