//! The order in which blocks are laid out.

ghost use Rattle.std.specs.Prelude.{◌≡◌, length, IfOk};
ghost use Rattle.std.specs.List.{range_with_len};

use pass_core::Insn;
use pass_core::function::Func;
use std::alloc::{AllocError, Global};

/// The blocks in the order of their numbers.
#[tactic(auto, using(crate::proofs::Lists::range_push))]
pub fn linear_order<I: Insn>(alloc: Global, f: &Func<I>) -> Result<Vec<u32>, AllocError>
    ensures { IfOk result (λ order. order.items ≡ range_with_len 0 (length f.now.blocks)) }
{
    let count = f.blocks.len() as u32;
    let mut order = Vec::new(alloc);
    for block in 0..count {
        order.push(block)?;
    }
    Ok(order)
}
