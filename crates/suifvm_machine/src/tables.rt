//! The instructions of a program, where a run finds them by their place.

ghost use Rattle.std.specs.Prelude.{◌+◌, ◌<◌, ◌^◌, length};

use pass_core::function::MemoryLocal;
use suifvm_ir::insn::VmInsn;

/// The instructions of a block.
#[derive(Drop)]
pub struct BlockTable<'p> {
    pub insns: Vec<&'p VmInsn>,
    /// The number of the first one, over the whole program.
    pub first: u64,
    pub ghost fits: { first + length insns.items < 2 ^ 64 },
}

/// The blocks and the memory locals of a function.
#[derive(Drop)]
pub struct FunctionTable<'p> {
    pub objects: &'p [MemoryLocal],
    pub blocks: Vec<BlockTable<'p>>,
    /// The number that follows its last instruction.
    pub end: u64,
}

/// The functions of a program.
#[derive(Drop)]
pub struct ProgramTable<'p> {
    pub functions: Vec<FunctionTable<'p>>,
    /// The number of instructions.
    pub end: u64,
}
