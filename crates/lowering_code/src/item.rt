//! The items of code that is emitted from its end to its start.

use suifvm_ir::insn::{TypedRegister, VmBranchOp, VmInsn};
use suifvm_ir::types::VmType;

/// A piece of the code of a function. Code is emitted in front of what follows it, so the name of a block is the
/// number of blocks that begin behind it, and every forward target is there before its jump.
#[derive(Drop)]
pub enum CodeItem {
    /// A block begins, and the code in front of it goes on into it.
    Start,
    /// An instruction that the next one follows.
    Plain(VmInsn),
    /// A jump to the block with a name. A block begins behind it.
    Jump(usize),
    /// A branch to the block with a name. A block begins behind it.
    Branch {
        op: VmBranchOp,
        ty: VmType,
        source: u32,
        name: usize,
    },
    /// A loop begins with a jump to its test, the block with a name. Its body begins behind it, with a mark.
    Loop(usize),
    /// A loop begins with its body, which begins with a mark.
    Enter,
    /// The loop that began last goes on with its body where the register is neither zero nor null. A block begins
    /// behind it.
    Again {
        ty: VmType,
        source: u32,
    },
    /// The loop that began last goes on with its body. A block begins behind it.
    Repeat,
    /// The call ends, with a value or without. A block begins behind it.
    Return(Option<TypedRegister>),
}
