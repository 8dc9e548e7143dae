//! The transfers of an allocation as items, and what the machine does at them: it does on registers and the slots of
//! its frame what the transfers do on places.

pub mod laws;
