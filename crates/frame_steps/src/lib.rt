//! What the machine does at the items of a function: how items stand in an image, and what it does at each item, at the
//! parts by which a function is entered and left, and at each instruction that is no call.
#![tactic(auto)]

pub mod call_parts;
pub mod frame_accesses;
pub mod frame_instructions;
pub mod frame_transfers;
pub mod function_items;
pub mod instruction_items;
pub mod item_steps;
pub mod machine_bounds;
