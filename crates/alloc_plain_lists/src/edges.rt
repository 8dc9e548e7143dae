//! The code of each edge.

ghost use Rattle.std.specs.Prelude.{◌≡◌, ◌++◌, ◌<◌, ◌^◌, [], ◌∷◌, map, length, IfOk, OnOk};
ghost use Rattle.pass_core.specs.Functions.{last_of};
ghost use Rattle.temp_ir.specs.Insns.{targets_of, flows_on_of};
ghost use Rattle.cfg.specs.Edges.{successors_from};
ghost use Rattle.alloc_model.specs.Faithful.{sorted_targets};
ghost use Rattle.alloc_plain_lists.specs.Plain.{stores_behind, edge_code};
ghost use Rattle.alloc_plain_lists.specs.Plain as lists;

use crate::blocks::last_insn;
use crate::insns::stores_of;
use alloc_model::allocation::EdgeCode;
use bk_containers::Seq;
use pass_core::block::Block;
use std::alloc::{AllocError, Global};
use temp_ir::insn::TempInsn;

/// A list of two blocks.
fn pair(alloc: Global, first: u32, second: u32) -> Result<Seq<u32>, AllocError>
    ensures { IfOk result (λ blocks. blocks ≡ first ∷ second ∷ []) }
{
    let mut blocks = Seq::new(alloc);
    blocks.push(first)?;
    blocks.push(second)?;
    Ok(blocks)
}

/// The blocks that may follow one, by rising number.
#[tactic(auto, using(crate::proofs::Loops::rising_same, crate::proofs::Loops::rising_few, crate::proofs::Loops::rising_turned))]
fn rising_blocks(alloc: Global, followers: &[u32]) -> Result<Seq<u32>, AllocError>
    ensures { IfOk result (λ blocks. blocks ≡ sorted_targets followers.now) }
{
    if followers.len() != 2 {
        return Ok(Seq::from_vec(Vec::from_slice(alloc, followers)?));
    }
    let first = followers[0];
    let second = followers[1];
    if second < first {
        pair(alloc, second, first)
    } else {
        Ok(Seq::from_vec(Vec::from_slice(alloc, followers)?))
    }
}

/// Puts the edges from a block with a last instruction to others.
fn put_edges(
    alloc: Global,
    out: &mut Seq<EdgeCode>,
    from: u32,
    last: Option<TempInsn>,
    targets: &[u32],
) -> Result<(), AllocError>
    ensures { OnOk result (out.new ≡ out.old ++ map (edge_code from (stores_behind last)) targets.now) }
{
    for to in targets {
        let code = stores_of(alloc, last)?;
        out.push(EdgeCode {
            from,
            to: *to,
            code,
        })?;
    }
    Ok(())
}

/// Puts the edges from a block, where these blocks may follow it.
fn put_block_edges(
    alloc: Global,
    out: &mut Seq<EdgeCode>,
    from: u32,
    block: &Block<TempInsn>,
    followers: &[u32],
) -> Result<(), AllocError>
    ensures { OnOk result
        (out.new ≡ out.old ++ map (edge_code from (stores_behind (last_of block.now))) (sorted_targets followers.now)) }
{
    let targets = rising_blocks(alloc, followers)?;
    put_edges(alloc, out, from, last_insn(block), targets.as_slice())
}

/// The code of each edge, where these blocks may follow each block.
#[tactic(auto, using(crate::proofs::Loops::edges_next, crate::proofs::Loops::as_many))]
pub(crate) fn all_edges(
    alloc: Global,
    blocks: &[Block<TempInsn>],
    followers: &[Seq<u32>],
) -> Result<Seq<EdgeCode>, AllocError>
    requires few { length blocks.now < 2 ^ 30 }
    requires edges { followers.now ≡ successors_from targets_of flows_on_of 0 blocks.now }
    ensures { IfOk result (λ edges. edges ≡ lists.all_edges 0 blocks.now) }
{
    let mut edges = Seq::new(alloc);
    for (number, block) in blocks.iter().enumerate() {
        put_block_edges(
            alloc,
            &mut edges,
            number as u32,
            block,
            followers[number].as_slice(),
        )?;
    }
    Ok(edges)
}
