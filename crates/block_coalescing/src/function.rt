//! The pass over the blocks of a function.

ghost use Rattle.std.specs.Prelude.{◌≡◌, Some, IfSome, IfOk, slice_get};
ghost use Rattle.bitvector_flow.specs.Flows.{has_at};
ghost use Rattle.block_coalescing.specs.Walks.{OptionWalked, AreWalked};
ghost use Rattle.block_coalescing.specs.Kept.{IsCoalesced, KeepsShape};

use crate::laws::coalesced_functions_keep_shape;
use crate::plan::Planner;
use crate::table::{NameTable, no_names};
use crate::walk::walk_block;
use bitvector_flow::{Flow, liveness};
use bk_bits::BitSet;
use bk_containers::Seq;
use cfg::build;
use pass_core::block::Block;
use pass_core::function::Func;
use std::alloc::{AllocError, Global};
use temp_ir::insn::TempInsn;

/// The instructions of a block.
#[tactic(auto, using(crate::proofs::Listed::insns_next))]
fn insns_of(alloc: Global, block: &Block<TempInsn>) -> Result<Vec<TempInsn>, AllocError>
    ensures { IfOk result (λ list. list.items ≡ block.now) }
{
    let mut list = Vec::new(alloc);
    for line in block.insns.iter() {
        let (_id, insn) = line;
        list.push(*insn)?;
    }
    Ok(list)
}

/// One of several sets.
fn set_at(sets: &[BitSet], at: usize) -> Option<&BitSet>
    ensures { IfSome result (λ set. slice_get sets.now at ≡ Some set.now) }
{
    sets.get(at)
}

/// One of several blocks.
fn block_at(blocks: &[Block<TempInsn>], at: usize) -> Option<&Block<TempInsn>>
    ensures { IfSome result (λ block. slice_get blocks.now at ≡ Some block.now) }
{
    blocks.get(at)
}

/// A block by what is planned for it, or nothing where that fails.
fn walk_at(
    alloc: Global,
    planner: &mut Planner,
    names: &mut NameTable,
    blocks: &[Block<TempInsn>],
    tops: &[BitSet],
    bottoms: &[BitSet],
    temps: u32,
    at: usize,
) -> Result<Option<Block<TempInsn>>, AllocError>
    ensures { IfOk result (λ made. IfSome made (λ ys.
        OptionWalked temps (has_at tops.now at) (has_at bottoms.now at) (slice_get blocks.now at) (Some ys))) }
{
    let Some(block) = block_at(blocks, at) else {
        return Ok(None);
    };
    let Some(top) = set_at(tops, at) else {
        return Ok(None);
    };
    let Some(bottom) = set_at(bottoms, at) else {
        return Ok(None);
    };
    let insns = insns_of(alloc, block)?;
    planner.plan_block(insns.as_slice(), bottom)?;
    walk_block(
        alloc,
        names,
        top,
        bottom,
        temps,
        insns.as_slice(),
        planner.plans(),
    )
}

/// All blocks, or nothing where some plan fails.
fn walk_all(
    alloc: Global,
    blocks: &[Block<TempInsn>],
    tops: &[BitSet],
    bottoms: &[BitSet],
    temps: u32,
) -> Result<Option<Seq<Block<TempInsn>>>, AllocError>
    ensures { IfOk result (λ made. IfSome made (λ new.
        AreWalked temps (has_at tops.now) (has_at bottoms.now) blocks.now new)) }
{
    let mut names = no_names(alloc, temps)?;
    let mut planner = Planner::new(alloc, temps)?;
    let mut made = Seq::new(alloc);
    for at in 0..blocks.len() {
        match walk_at(
            alloc,
            &mut planner,
            &mut names,
            blocks,
            tops,
            bottoms,
            temps,
            at,
        )? {
            None => return Ok(None),
            Some(block) => made.push(block)?,
        }
    }
    Ok(Some(made))
}

/// The function without the copies and the dead instructions that can go: a copy goes where its temporary or its source
/// can stand for the other, and an instruction of which nothing but the write of a dead temporary comes goes too. The
/// function stays as it was where a block can not be made so. It fails only where memory is short.
pub fn coalesce(alloc: Global, f: Func<TempInsn>) -> Result<Func<TempInsn>, AllocError>
    ensures coalesced { IfOk result (λ g. IsCoalesced f g) }
    ensures shape { IfOk result (λ g. KeepsShape f g) }
{
    coalesced_functions_keep_shape();
    let graph = build(alloc, &f)?;
    let Flow { top, bottom } = liveness(alloc, &f, &graph)?;
    let walked = walk_all(
        alloc,
        f.blocks.as_slice(),
        top.as_slice(),
        bottom.as_slice(),
        f.temps,
    )?;
    match walked {
        None => Ok(f),
        Some(new) => {
            let Func {
                name,
                params,
                temps,
                objects,
                blocks: _,
            } = f;
            Ok(Func {
                name,
                params,
                temps,
                objects,
                blocks: new,
            })
        }
    }
}
