//! Want of memory, as contracts speak of it.
//!
//! No contract can say that an allocation was refused: the allocator shows nothing of it, so an answer for want
//! of memory would be met by any body, also by one that turns another fault into it. Here stands a fact that
//! is had of the error of an allocation, so that a clause can ask for it beside that answer. That no source makes such
//! an error up is a check of the text (`tools/made_up_errors.py`), and no clause.
#![tactic(auto)]

ghost use Rattle.bk_memory.specs.Shortage.{MemoryIsShort};

use std::alloc::AllocError;

/// Memory is short, as the error of an allocation says. Contracts see it, and nothing is done.
pub fn memory_is_short(_refusal: AllocError)
    ensures { MemoryIsShort }
{}
