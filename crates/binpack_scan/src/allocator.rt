//! The allocator.

ghost use Rattle.alloc_rules.specs.Allocations.{IsAllocationOf};

use crate::binpack;
use alloc_model::allocation::Allocation;
use alloc_rules::Allocates;
use pass_core::function::Func;
use std::alloc::{AllocError, Global};
use temp_ir::insn::TempInsn;

/// The allocator that gives temporaries registers by one scan with second chances.
#[derive(Clone, Copy, Debug, Drop)]
pub struct BinpackAllocator;

impl Allocates for BinpackAllocator {
    ghost gives = { IsAllocationOf };

    ghost lawful = { λ f a given. given };

    fn allocation(&self, alloc: Global, f: &Func<TempInsn>) -> Result<Allocation, AllocError> {
        let a = binpack(alloc, f)?;
        Ok(a)
    }
}
