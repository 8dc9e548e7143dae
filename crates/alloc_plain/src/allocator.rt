//! The allocator.

ghost use Rattle.alloc_plain.specs.Plain.{IsPlainAllocationOf};

use crate::plain;
use alloc_model::allocation::Allocation;
use alloc_rules::Allocates;
use pass_core::function::Func;
use std::alloc::{AllocError, Global};
use temp_ir::insn::TempInsn;

/// The allocator that lets every temporary live in its slot.
#[derive(Clone, Copy, Debug, Drop)]
pub struct PlainAllocator;

impl Allocates for PlainAllocator {
    ghost gives = { IsPlainAllocationOf };

    ghost lawful = { λ f a given. given.allocation };

    fn allocation(&self, alloc: Global, f: &Func<TempInsn>) -> Result<Allocation, AllocError> {
        let a = plain(alloc, f)?;
        Ok(a)
    }
}
