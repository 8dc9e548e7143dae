//! Makes the items of a function's parts: transfers, instructions, and the parts by which it is entered and left.
//!
//! Items are put in front of those that follow them, as the definitions have it, so a function is made from its end to
//! its start. What the items of each part are stands in `frame_accesses`, `frame_transfers`, `instruction_items` and
//! `call_parts`, and each function here makes one of those.
#![tactic(auto)]

pub mod accesses;
pub mod insns;
pub mod items;
pub mod layout;
pub mod operations;
pub mod parts;
mod places;
pub mod transfers;
