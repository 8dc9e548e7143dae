//! The parts of a function by which it is entered and left, and what the machine does there.
//!
//! `specs/call_parts/Items.antt` has their items; `specs/call_parts/Laws.antt` says what the frame and the registers are behind them.

pub mod laws;
