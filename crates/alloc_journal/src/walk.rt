//! The walk over a function.

ghost use Rattle.std.specs.Prelude.{◌≡◌, ◌+◌, ◌++◌, ◌<◌, ◌^◌, [], All, length, replicate, slice_index_or, None, IfOk, OnOk};
ghost use Rattle.pass_core.specs.Functions.{AllInsns, UsesRegisters, count_of};
ghost use Rattle.temp_ir.specs.Insns.{reads_of, writes_of};
ghost use Rattle.alloc_model.specs.Places.{Plan};
ghost use Rattle.alloc_model.specs.Faithful.{IsGivenRegister, IsTransfer};
ghost use Rattle.alloc_rules.specs.Visits.{Wants};
ghost use Rattle.alloc_rules.specs.Journal as journal;
ghost use Rattle.alloc_journal.specs.Covered.{SayCovered};
ghost use Rattle.alloc_journal.specs.Handed.{HasRows, HandsHomesOn};
ghost use Rattle.alloc_journal.specs.model.Tables.{AreBelow};
ghost use Rattle.alloc_journal.specs.model.Visits.{visits_by, behind_all, journal_by};

use crate::visits::put_visit;
use alloc_model::allocation::{Event, Transfer};
use alloc_rules::scan::Lifetimes;
use binpack_blocks::bins::GIVEN;
use bk_containers::Seq;
use pass_core::block::Block;
use pass_core::function::Func;
use std::alloc::{AllocError, Global};
use temp_ir::insn::TempInsn;

/// The transfers before the instruction with a number.
fn transfers_with(at: &[Seq<Transfer>], number: u32) -> &[Transfer]
    ensures { result.now ≡ slice_index_or at.now number [] }
{
    match at.get(number as usize) {
        None => &[],
        Some(transfers) => transfers.as_slice(),
    }
}

/// The stated registers of the instruction with a number.
fn registers_with(regs: &[Seq<u8>], number: u32) -> &[u8]
    ensures { result.now ≡ slice_index_or regs.now number [] }
{
    match regs.get(number as usize) {
        None => &[],
        Some(registers) => registers.as_slice(),
    }
}

/// Puts the events of the visits of a block, whose first instruction has a number, and gives the number behind it.
fn put_visits(
    alloc: Global,
    out: &mut Seq<Event>,
    lives: &Lifetimes,
    temps: u32,
    at: &[Seq<Transfer>],
    regs: &[Seq<u8>],
    block: &Block<TempInsn>,
    number: u32,
    holders: &mut [Option<u32>],
) -> Result<u32, AllocError>
    requires few { number + length block.now < 2 ^ 30 }
    requires many { length holders.old ≡ 26 }
    requires below { AreBelow temps holders.old }
    requires inside { All (UsesRegisters reads_of writes_of temps) block.now }
    requires transfers { All (All (IsTransfer temps IsGivenRegister)) at.now }
    requires registers { All (All IsGivenRegister) regs.now }
    ensures events { OnOk result
        (out.new ≡ out.old ++ visits_by temps lives.now at.now regs.now number block.now holders.old) }
    ensures behind { OnOk result (holders.new ≡ behind_all at.now regs.now number block.now holders.old) }
    ensures below { OnOk result (AreBelow temps holders.new) }
    ensures next { IfOk result (λ next. next ≡ number + length block.now) }
{
    let mut next = number;
    for line in block.insns.iter() {
        let (_id, insn) = line;
        let transfers = transfers_with(at, next);
        let registers = registers_with(regs, next);
        put_visit(
            alloc, out, lives, temps, next, insn, transfers, registers, holders,
        )?;
        next += 1;
    }
    Ok(next)
}

/// Puts the events of the visits of all blocks.
fn put_blocks(
    alloc: Global,
    out: &mut Seq<Event>,
    lives: &Lifetimes,
    temps: u32,
    at: &[Seq<Transfer>],
    regs: &[Seq<u8>],
    blocks: &[Block<TempInsn>],
    holders: &mut [Option<u32>],
) -> Result<(), AllocError>
    requires few { count_of blocks.now < 2 ^ 30 }
    requires many { length holders.old ≡ 26 }
    requires below { AreBelow temps holders.old }
    requires inside { AllInsns (UsesRegisters reads_of writes_of temps) blocks.now }
    requires transfers { All (All (IsTransfer temps IsGivenRegister)) at.now }
    requires registers { All (All IsGivenRegister) regs.now }
    ensures { OnOk result
        (out.new ≡ out.old ++ journal_by temps lives.now at.now regs.now 0 blocks.now holders.old) }
{
    let mut next = 0;
    for block in blocks {
        next = put_visits(alloc, out, lives, temps, at, regs, block, next, holders)?;
    }
    Ok(())
}

/// The journal of an allocation of a function, by where its temporaries are wanted, the transfers before each
/// instruction and the stated registers of each. It goes over each instruction once, in order, and fails only where
/// memory is short.
pub fn journal_of(
    alloc: Global,
    f: &Func<TempInsn>,
    lives: &Lifetimes,
    at: &[Seq<Transfer>],
    regs: &[Seq<u8>],
) -> Result<Seq<Event>, AllocError>
    requires transfers { All (All (IsTransfer f.now.temps IsGivenRegister)) at.now }
    requires registers { All (All IsGivenRegister) regs.now }
    ensures { IfOk result (λ events. (a : Plan) (wants : Wants) → HasRows a f.now at.now regs.now
        → SayCovered lives.now a wants → HandsHomesOn a wants → events ≡ journal.journal_of a wants) }
{
    let mut holders = Vec::new(alloc);
    holders.resize(GIVEN as usize, None)?;
    let mut events = Seq::new(alloc);
    put_blocks(
        alloc,
        &mut events,
        lives,
        f.temps,
        at,
        regs,
        f.blocks.as_slice(),
        holders.as_mut_slice(),
    )?;
    Ok(events)
}
