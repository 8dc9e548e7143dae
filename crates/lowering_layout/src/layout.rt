//! How far a layout has come.

use crate::heads::Heads;
use bk_containers::Seq;
use pass_core::block::Block;
use suifvm_ir::insn::VmInsn;

/// How far the layout has come.
#[derive(Drop)]
pub struct BlockLayout {
    /// The number of the last block.
    pub last: u32,
    /// The blocks that are whole.
    pub blocks: Seq<Block<VmInsn>>,
    /// The instructions of the next one.
    pub insns: Block<VmInsn>,
    pub heads: Heads,
    /// One more than the greatest register that is named so far, or 0.
    pub temps: u64,
}
