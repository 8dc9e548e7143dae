//! The frames of the calls that wait, above the frame of the call that goes on.
//!
//! `specs/call_stacks/Stacks.antt` says when the machine's bytes have them, with return addresses and kept registers; the laws,
//! what keeps them.

pub mod laws;
