//! The lists of all blocks of a function, and the last instruction of a block.

ghost use Rattle.std.specs.Prelude.{◌≡◌, ◌++◌, [], map, flat_map, None, IfOk, OnOk};
ghost use Rattle.pass_core.specs.Functions.{last_of};
ghost use Rattle.alloc_plain_lists.specs.Plain.{plain_registers, transfers_from};

use crate::insns::{registers, transfers};
use alloc_model::allocation::{TempPlace, Transfer};
use bk_containers::Seq;
use pass_core::block::Block;
use std::alloc::{AllocError, Global};
use temp_ir::insn::TempInsn;

/// Puts the transfers before each instruction of a block.
#[tactic(auto, using(crate::proofs::Loops::transfers_next))]
fn put_transfers(
    alloc: Global,
    out: &mut Seq<Seq<Transfer>>,
    block: &Block<TempInsn>,
) -> Result<(), AllocError>
    ensures { OnOk result (out.new ≡ out.old ++ transfers_from None block.now) }
{
    let mut before = None;
    for line in block.insns.iter() {
        let (_id, insn) = line;
        let found = transfers(alloc, before, insn)?;
        out.push(found)?;
        before = Some(*insn);
    }
    Ok(())
}

/// Puts the registers of each instruction of a block.
#[tactic(auto, using(crate::proofs::Loops::registers_next))]
fn put_registers(
    alloc: Global,
    out: &mut Seq<Seq<u8>>,
    block: &Block<TempInsn>,
) -> Result<(), AllocError>
    ensures { OnOk result (out.new ≡ out.old ++ map plain_registers block.now) }
{
    for line in block.insns.iter() {
        let (_id, insn) = line;
        out.push(registers(alloc, insn)?)?;
    }
    Ok(())
}

/// The transfers before each instruction.
pub(crate) fn all_transfers(
    alloc: Global,
    blocks: &[Block<TempInsn>],
) -> Result<Seq<Seq<Transfer>>, AllocError>
    ensures { IfOk result (λ all. all ≡ flat_map (transfers_from None) blocks.now) }
{
    let mut all = Seq::new(alloc);
    for block in blocks {
        put_transfers(alloc, &mut all, block)?;
    }
    Ok(all)
}

/// The registers of each instruction.
pub(crate) fn all_registers(
    alloc: Global,
    blocks: &[Block<TempInsn>],
) -> Result<Seq<Seq<u8>>, AllocError>
    ensures { IfOk result (λ all. all ≡ flat_map (map plain_registers) blocks.now) }
{
    let mut all = Seq::new(alloc);
    for block in blocks {
        put_registers(alloc, &mut all, block)?;
    }
    Ok(all)
}

/// A map for each block that names no temporary.
pub(crate) fn empty_maps(
    alloc: Global,
    blocks: &[Block<TempInsn>],
) -> Result<Seq<Seq<TempPlace>>, AllocError>
    ensures { IfOk result (λ maps. maps ≡ map (λ block. []) blocks.now) }
{
    let mut maps = Seq::new(alloc);
    for _block in blocks {
        maps.push(Seq::new(alloc))?;
    }
    Ok(maps)
}

/// The last instruction of a block, if it has one.
pub(crate) fn last_insn(block: &Block<TempInsn>) -> Option<TempInsn>
    ensures { result ≡ last_of block.now }
{
    let insns = &block.insns;
    match insns.last() {
        None => None,
        Some(id) => Some(*insns.get(id)),
    }
}
