//! What instructions put behind the parts and references of the temporaries that they name.

ghost use Rattle.std.specs.Prelude.{◌≡◌, ◌+◌, ◌*◌, ◌-◌, ◌<◌, ◌≤◌, ◌&&◌, ◌^◌, nat_lt, All, length, OnOk, IfOk};
ghost use Rattle.pass_core.specs.Functions.{UsesRegisters};
ghost use Rattle.temp_ir.specs.Insns.{reads_of, writes_of};
ghost use Rattle.bk_bits.specs.Sets.{has};
ghost use Rattle.lifetime_holes.specs.model.Spans.{JoinsSome, Changes};
ghost use Rattle.lifetime_holes.specs.model.Walks.{AreVisited, AreNamed, AreWalked, AreCounted};

use crate::lists::{mark, mark_named, note_named};
use alloc_rules::scan::LifetimePart;
use bk_bits::BitSet;
use bk_containers::Seq;
use pass_core::Insn;
use pass_core::block::Block;
use std::alloc::{AllocError, Global};
use temp_ir::insn::TempInsn;

/// Puts the range since the start of the block behind the parts of what an instruction with a number reads, and the
/// point of writing behind those of what it writes.
fn mark_insn(
    alloc: Global,
    table: &mut [Seq<LifetimePart>],
    insn: &TempInsn,
    start: u32,
    number: u32,
) -> Result<(), AllocError>
    requires few { number < 2 ^ 30 }
    requires inside { UsesRegisters reads_of writes_of (length table.now) insn.now }
    ensures { OnOk result (AreVisited start number insn.now table.old table.new) }
{
    mark_named(alloc, table, insn.read_at(0), start, 2 * number)?;
    mark_named(alloc, table, insn.read_at(1), start, 2 * number)?;
    mark_named(
        alloc,
        table,
        insn.write_at(0),
        2 * number + 1,
        2 * number + 1,
    )?;
    Ok(())
}

/// Puts the points at which an instruction with a number reads and writes behind the references of what it names.
fn note_insn(
    alloc: Global,
    table: &mut [Seq<u32>],
    insn: &TempInsn,
    number: u32,
) -> Result<(), AllocError>
    requires few { number < 2 ^ 30 }
    requires inside { UsesRegisters reads_of writes_of (length table.now) insn.now }
    ensures { OnOk result (AreNamed number insn.now table.old table.new) }
{
    note_named(alloc, table, insn.read_at(0), 2 * number)?;
    note_named(alloc, table, insn.read_at(1), 2 * number)?;
    note_named(alloc, table, insn.write_at(0), 2 * number + 1)?;
    Ok(())
}

/// Does so for the instructions of a block that begins at a point, and gives the number behind them.
pub(crate) fn mark_insns(
    alloc: Global,
    parts: &mut [Seq<LifetimePart>],
    refs: &mut [Seq<u32>],
    block: &Block<TempInsn>,
    number: u32,
) -> Result<u32, AllocError>
    requires few { number + length block.now < 2 ^ 30 }
    requires parts { All (UsesRegisters reads_of writes_of (length parts.now)) block.now }
    requires refs { All (UsesRegisters reads_of writes_of (length refs.now)) block.now }
    ensures next { IfOk result (λ next. next ≡ number + length block.now) }
    ensures parts { OnOk result (AreWalked (2 * number) number block.now parts.old parts.new) }
    ensures refs { OnOk result (AreCounted number block.now refs.old refs.new) }
{
    let mut next = number;
    for line in block.insns.iter() {
        let (_id, insn) = line;
        mark_insn(alloc, parts, insn, 2 * number, next)?;
        note_insn(alloc, refs, insn, next)?;
        next += 1;
    }
    Ok(next)
}

/// Puts a range behind the parts of the members of a set.
#[tactic(auto, using(crate::proofs::Tables::set_begins, crate::proofs::Tables::set_next, crate::proofs::Tables::set_done, crate::proofs::Tables::next_inside))]
pub(crate) fn mark_set(
    alloc: Global,
    table: &mut [Seq<LifetimePart>],
    set: &BitSet,
    first: u32,
    last: u32,
) -> Result<(), AllocError>
    requires bound { length set.now ≤ length table.now }
    requires few { length table.now < 2 ^ 32 }
    ensures { OnOk result (Changes (has set.now) (JoinsSome first last) table.old table.new) }
{
    let mut from = 0;
    while let Some(temp) = set.next_from(from) {
        mark(alloc, table, temp, first, last)?;
        from = temp + 1;
    }
    Ok(())
}
