//! Functions over instructions of any kind.

ghost use Rattle.std.specs.Prelude.{◌<◌, ◌^◌, All, IsTrue, length};
ghost use Rattle.pass_core.specs.Functions.{AllInsns, GoesToBlocks, UsesRegisters, EndsLate, stops, count_of};

use crate::Insn;
use crate::block::Block;
use bk_containers::{Name, Seq};

/// A memory local of a function: an object that lives as long as a call.
#[derive(Clone, Copy, Debug, PartialEq, Eq)]
pub struct MemoryLocal {
    /// The bytes that it takes.
    pub size: u64,
    /// The alignment of its type, in bytes.
    pub align: u32,
}

/// A function has fewer blocks than this, and fewer instructions.
pub const COUNT_LIMIT: usize = 1 << 30;

/// A function. Block 0 is its entry; its first registers have the arguments.
#[derive(Drop)]
pub struct Func<I: Insn> {
    pub name: Name,
    /// The number of parameters.
    pub params: u32,
    /// The number of registers or temporaries.
    pub temps: u32,
    /// The memory locals.
    pub objects: Seq<MemoryLocal>,
    pub blocks: Seq<Block<I>>,
    // a target is a block other than the entry
    pub ghost targets: { AllInsns (GoesToBlocks I.targets (length blocks)) blocks },
    // what goes elsewhere stands last in its block
    pub ghost straight: { All (EndsLate I.targets I.flows_on) blocks },
    // nothing runs off the end
    pub ghost stops: { IsTrue (stops I.flows_on blocks) },
    pub ghost few_blocks: { length blocks < 2 ^ 30 },
    pub ghost few_insns: { count_of blocks < 2 ^ 30 },
    pub ghost registers: { AllInsns (UsesRegisters I.reads I.writes temps) blocks },
}
