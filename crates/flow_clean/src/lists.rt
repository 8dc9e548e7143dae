//! Blocks that grow at their front.

ghost use Rattle.std.specs.Prelude.{◌≡◌, ◌∷◌, OnOk, OnErr};

use pass_core::block::{Block, LAST_ID};
use std::alloc::AllocError;

/// Puts an instruction before the others. Where memory is short, or the list has no more ids, the block stays as it was.
pub(crate) fn push_front<I: Drop>(block: &mut Block<I>, insn: I) -> Result<(), AllocError>
    ensures ok { OnOk result (block.new ≡ insn ∷ block.old) }
    ensures err { OnErr result (block.new ≡ block.old) }
{
    if block.insns.made() >= LAST_ID - 1 {
        return Err(AllocError);
    }
    block.insns.reserve(1)?;
    let _id = match block.insns.first() {
        None => block.insns.push_back(insn),
        Some(first) => block.insns.insert_before(first, insn),
    };
    Ok(())
}
