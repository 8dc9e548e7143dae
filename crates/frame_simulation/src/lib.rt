//! The simulation: the machine follows in its flat bytes each step of a run over registers and slots, calls, returns
//! and divisions among them, and does nothing else.
#![tactic(auto)]

pub mod call_entries;
pub mod call_exits;
pub mod call_stacks;
pub mod call_steps;
pub mod division_calls;
pub mod edge_leads;
pub mod edge_shapes;
pub mod edge_steps;
pub mod flat_runs;
pub mod flat_steps;
pub mod function_shapes;
pub mod placed_steps;
pub mod stack_rooms;
