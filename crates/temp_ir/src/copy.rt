//! Copies of functions.

ghost use Rattle.std.specs.Prelude.{◌≡◌, IfOk};

use crate::insn::TempInsn;
use bk_containers::Seq;
use pass_core::block::Block;
use pass_core::function::{Func, MemoryLocal};
use std::alloc::{AllocError, Global};

/// An equal block. It fails only where memory is short.
#[tactic(auto, using(crate::proofs::Copies::insns_next))]
fn copy_block(alloc: Global, block: &Block<TempInsn>) -> Result<Block<TempInsn>, AllocError>
    ensures { IfOk result (λ copy. copy ≡ block.now) }
{
    let mut copy = Block::new(alloc);
    for line in block.insns.iter() {
        let (_id, insn) = line;
        copy.push(*insn)?;
    }
    Ok(copy)
}

/// Equal blocks. It fails only where memory is short.
fn copy_blocks(
    alloc: Global,
    blocks: &[Block<TempInsn>],
) -> Result<Seq<Block<TempInsn>>, AllocError>
    ensures { IfOk result (λ copies. copies ≡ blocks.now) }
{
    let mut copies = Seq::new(alloc);
    for block in blocks {
        copies.push(copy_block(alloc, block)?)?;
    }
    Ok(copies)
}

/// Equal memory locals, in order. It fails only where memory is short.
pub fn copy_objects(alloc: Global, objects: &[MemoryLocal]) -> Result<Seq<MemoryLocal>, AllocError>
    ensures { IfOk result (λ copies. copies ≡ objects.now) }
{
    Ok(Seq::from_vec(Vec::from_slice(alloc, objects)?))
}

/// A function with the same name, numbers, objects, blocks and instructions. It fails only where memory is short.
pub fn copy_fn(alloc: Global, f: &Func<TempInsn>) -> Result<Func<TempInsn>, AllocError>
    ensures name { IfOk result (λ g. g.name ≡ f.now.name) }
    ensures params { IfOk result (λ g. g.params ≡ f.now.params) }
    ensures temps { IfOk result (λ g. g.temps ≡ f.now.temps) }
    ensures objects { IfOk result (λ g. g.objects ≡ f.now.objects) }
    ensures blocks { IfOk result (λ g. g.blocks ≡ f.now.blocks) }
{
    let name = f.name.copy()?;
    let objects = copy_objects(alloc, f.objects.as_slice())?;
    let blocks = copy_blocks(alloc, f.blocks.as_slice())?;
    Ok(Func {
        name,
        params: f.params,
        temps: f.temps,
        objects,
        blocks,
    })
}
