//! Functions.

ghost use Rattle.std.specs.Prelude.{◌≡◌, IfOk, IfSome};

use crate::blocks::{blocks_of, is_body};
use bk_containers::{Name, Seq};
use pass_core::Insn;
use pass_core::function::{Func, MemoryLocal};
use std::alloc::{AllocError, Global};

/// What a function is made of.
#[derive(Drop)]
pub struct Parts<I: Insn> {
    pub name: Name,
    /// The number of parameters.
    pub params: u32,
    /// The number of registers.
    pub registers: u32,
    /// The memory locals.
    pub objects: Seq<MemoryLocal>,
    /// The instructions of each block.
    pub blocks: Vec<Seq<I>>,
}

/// The function of these parts, where their blocks are those of a function with so many registers.
pub fn function_of<I: Insn>(alloc: Global, parts: Parts<I>) -> Result<Option<Func<I>>, AllocError>
    ensures name { IfOk result (λ found. IfSome found (λ f. f.name ≡ parts.name)) }
    ensures params { IfOk result (λ found. IfSome found (λ f. f.params ≡ parts.params)) }
    ensures registers { IfOk result (λ found. IfSome found (λ f. f.temps ≡ parts.registers)) }
    ensures objects { IfOk result (λ found. IfSome found (λ f. f.objects ≡ parts.objects)) }
    ensures blocks { IfOk result (λ found. IfSome found (λ f. f.blocks ≡ parts.blocks.items)) }
{
    let Parts {
        name,
        params,
        registers,
        objects,
        blocks,
    } = parts;
    if !is_body(blocks.as_slice(), registers) {
        return Ok(None);
    }
    let blocks = blocks_of(alloc, blocks)?;
    Ok(Some(Func {
        name,
        params,
        temps: registers,
        objects,
        blocks,
    }))
}
