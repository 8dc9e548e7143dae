//! The frames of calls on the machine's stack.
//!
//! `specs/flat_frames/Shapes.antt` says how the frame of a function is laid out, and whose its bytes are; `specs/flat_frames/Frames.antt` when
//! a frame stands for the slots, argument places and objects of a call.

pub mod laws;
