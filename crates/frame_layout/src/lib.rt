//! Lays out the frame of a function with a faithful allocation, and makes its items.
#![tactic(auto)]

mod blocks;
mod edges;
mod function;
mod kept;
mod names;
mod near;
mod shape;

pub use function::finalise;
