//! The text of an allocation, and of its journal.

ghost use Rattle.std.specs.Prelude.{◌≡◌, ◌+◌, ◌<◌, ◌^◌, ◌++◌, [], IfOk, OnOk, length, slice_index_or};
ghost use Rattle.bk_ilist.specs.Listing.{items};
ghost use Rattle.pass_core.specs.Functions.{count_of};
ghost use Rattle.alloc_lines.specs.Text as text;

use crate::lines::{put_edges, put_events, put_map, put_transfers};
use crate::registers::with_registers;
use alloc_model::allocation::{Allocation, TempPlace, Transfer};
use bk_containers::Seq;
use bk_ilist::IndexList;
use pass_core::block::Block;
use std::alloc::{AllocError, Global};
use suifvm_ir::text_parts::{put, put_number};
use temp_ir::insn::TempInsn;
use temp_ir::text_parts::put_insn;

/// The transfers before an instruction.
fn transfers_at(lists: &[Seq<Transfer>], at: usize) -> &[Transfer]
    ensures { result.now ≡ slice_index_or lists.now at [] }
{
    match lists.get(at) {
        None => &[],
        Some(list) => list.as_slice(),
    }
}

/// The registers of an instruction's temporaries.
fn registers_at(lists: &[Seq<u8>], at: usize) -> &[u8]
    ensures { result.now ≡ slice_index_or lists.now at [] }
{
    match lists.get(at) {
        None => &[],
        Some(list) => list.as_slice(),
    }
}

/// The places at an end of a block.
fn standings_at(maps: &[Seq<TempPlace>], block: usize) -> &[TempPlace]
    ensures { result.now ≡ slice_index_or maps.now block [] }
{
    match maps.get(block) {
        None => &[],
        Some(map) => map.as_slice(),
    }
}

/// Puts an instruction with a number, and the transfers before it.
fn put_line(
    out: &mut Vec<u8>,
    number: u64,
    transfers: &[Transfer],
    registers: &[u8],
    insn: &TempInsn,
) -> Result<(), AllocError>
    ensures { OnOk result
        (out.new.items ≡ out.old.items ++ text.insn_lines number transfers.now registers.now insn.now) }
{
    put_transfers(out, transfers)?;
    put_number(out, number)?;
    put(out, " ")?;
    put_insn(out, "$", &with_registers(registers, insn))?;
    put(out, "\n")
}

/// Puts instructions from a place in linear order on, and answers the place that follows.
#[tactic(auto, using(crate::proofs::Loops::insns_next))]
fn put_insns(
    out: &mut Vec<u8>,
    first: u64,
    mut at: u64,
    transfers: &[Seq<Transfer>],
    registers: &[Seq<u8>],
    insns: &IndexList<TempInsn>,
) -> Result<u64, AllocError>
    requires { first + at + length (items insns.now.pairs) < 2 ^ 64 }
    ensures text { OnOk result (out.new.items
        ≡ out.old.items ++ text.insns_lines first at transfers.now registers.now (items insns.now.pairs)) }
    ensures next { IfOk result (λ next. next ≡ at + length (items insns.now.pairs)) }
{
    for line in insns.iter() {
        let (_id, insn) = line;
        put_line(
            out,
            first + at,
            transfers_at(transfers, at as usize),
            registers_at(registers, at as usize),
            insn,
        )?;
        at += 1;
    }
    Ok(at)
}

/// Puts a block, and answers the place in linear order that follows its instructions.
fn put_block_lines(
    out: &mut Vec<u8>,
    first: u64,
    at: u64,
    block: u32,
    a: &Allocation,
    insns: &Block<TempInsn>,
) -> Result<u64, AllocError>
    requires { first + at + length insns.now < 2 ^ 64 }
    ensures text { OnOk result (out.new.items ≡ out.old.items ++ text.block_lines first at block a.now insns.now) }
    ensures next { IfOk result (λ next. next ≡ at + length insns.now) }
{
    put_map(
        out,
        block,
        " top",
        standings_at(a.top.as_slice(), block as usize),
    )?;
    let next = put_insns(
        out,
        first,
        at,
        a.at.as_slice(),
        a.regs.as_slice(),
        &insns.insns,
    )?;
    put_map(
        out,
        block,
        " bottom",
        standings_at(a.bottom.as_slice(), block as usize),
    )?;
    Ok(next)
}

/// Puts the blocks of an allocation, and answers the number that follows its instructions.
#[tactic(auto, using(crate::proofs::Loops::blocks_next, crate::proofs::Loops::blocks_end, crate::proofs::Loops::blocks_count, crate::proofs::Loops::count_end))]
fn put_blocks(out: &mut Vec<u8>, first: u64, a: &Allocation) -> Result<u64, AllocError>
    requires { first + count_of a.now.func.blocks < 2 ^ 64 }
    ensures text { OnOk result
        (out.new.items ≡ out.old.items ++ text.blocks_lines first 0 0 a.now a.now.func.blocks) }
    ensures next { IfOk result (λ next. next ≡ first + count_of a.now.func.blocks) }
{
    let blocks = a.func.blocks.as_slice();
    let mut at = 0;
    for block in 0..blocks.len() {
        at = put_block_lines(out, first, at, block as u32, a, &blocks[block])?;
    }
    Ok(first + at)
}

/// Puts the line with a function's name.
fn put_name(out: &mut Vec<u8>, name: &[u8]) -> Result<(), AllocError>
    ensures { OnOk result (out.new.items ≡ out.old.items ++ text.name_line name.now) }
{
    put(out, "func ")?;
    out.extend_from_slice(name)?;
    put(out, "\n")
}

/// Puts the text of an allocation whose instructions have numbers from one on, as in a program with other functions
/// before it, and answers the number that follows. It fails only where memory is short.
pub fn put_allocation(out: &mut Vec<u8>, first: u64, a: &Allocation) -> Result<u64, AllocError>
    requires { first + count_of a.now.func.blocks < 2 ^ 64 }
    ensures text { OnOk result (out.new.items ≡ out.old.items ++ text.allocation_text first a.now) }
    ensures next { IfOk result (λ next. next ≡ first + count_of a.now.func.blocks) }
{
    put_name(out, a.func.name.as_slice())?;
    let next = put_blocks(out, first, a)?;
    put_edges(out, a.edges.as_slice())?;
    Ok(next)
}

/// The text of an allocation: the function's name; for each block the places at its top, each instruction with its
/// number and registers behind the transfers before it, and the places at its bottom; then each edge with its
/// transfers. It fails only where memory is short.
pub fn alloc_text(alloc: Global, a: &Allocation) -> Result<Vec<u8>, AllocError>
    ensures { IfOk result (λ bytes. bytes.items ≡ text.allocation_text 0 a.now) }
{
    let mut out = Vec::new(alloc);
    put_allocation(&mut out, 0, a)?;
    Ok(out)
}

/// The text of an allocation's journal: the function's name, and a line for each event. It fails only where memory is
/// short.
pub fn journal_text(alloc: Global, a: &Allocation) -> Result<Vec<u8>, AllocError>
    ensures { IfOk result (λ bytes. bytes.items ≡ text.journal_lines a.now) }
{
    let mut out = Vec::new(alloc);
    put_name(&mut out, a.func.name.as_slice())?;
    put_events(&mut out, a.journal.as_slice())?;
    Ok(out)
}
