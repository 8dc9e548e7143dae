//! One scan over a function that gives its temporaries registers, with second chances, and the code of its edges.
#![tactic(auto)]

mod allocation;
mod allocator;
mod crossing;
mod edges;
mod scan;

pub use allocation::binpack;
pub use allocator::BinpackAllocator;
