//! The events of a visit.

ghost use Rattle.std.specs.Prelude.{◌≡◌, ◌+◌, ◌*◌, ◌++◌, ◌<◌, ◌^◌, All, map, flat_map, length, IfOk, OnOk};
ghost use Rattle.pass_core.specs.Functions.{UsesRegisters};
ghost use Rattle.temp_ir.specs.Insns.{reads_of, writes_of};
ghost use Rattle.alloc_model.specs.Faithful.{IsGivenRegister, IsTransfer};
ghost use Rattle.alloc_rules.specs.Journal.{eviction, assigned_by_move, assigned_unless};
ghost use Rattle.alloc_rules.specs.Journal as journal;
ghost use Rattle.alloc_journal.specs.model.Holders.{holders_behind, written_pairs};
ghost use Rattle.alloc_journal.specs.model.Leaving.{leaving_events, leaving_at, all_leaving};
ghost use Rattle.alloc_journal.specs.model.Tables.{AreBelow};
ghost use Rattle.alloc_journal.specs.model.Visits.{assignments, write_events, visit_by};

use crate::gone::next_gone;
use crate::holders::{Written, leave_all, move_all, register_of, write, written_with};
use crate::lives::covers;
use alloc_model::allocation::{Event, Transfer};
use alloc_rules::scan::Lifetimes;
use bk_containers::Seq;
use std::alloc::{AllocError, Global};
use temp_ir::insn::TempInsn;

/// Puts that a temporary leaves a register, where its lifetime covers the point and it has no register behind it.
fn put_eviction(
    out: &mut Seq<Event>,
    covered: bool,
    before: Option<u8>,
    behind: Option<u8>,
    temp: u32,
) -> Result<(), AllocError>
    ensures { OnOk result (out.new ≡ out.old ++ eviction covered before behind temp) }
{
    let Some(reg) = before else {
        return Ok(());
    };
    if behind.is_some() {
        return Ok(());
    }
    if covered {
        out.push(Event::Evict { temp, reg })
    } else {
        Ok(())
    }
}

/// Puts that a temporary leaves a register at a point, if it does.
fn put_leaving(
    out: &mut Seq<Event>,
    lives: &Lifetimes,
    point: u32,
    before: &[Option<u32>],
    behind: &[Option<u32>],
    temp: u32,
) -> Result<(), AllocError>
    requires before { length before.now ≡ 26 }
    requires behind { length behind.now ≡ 26 }
    ensures { OnOk result (out.new ≡ out.old ++ leaving_events lives.now point before.now behind.now temp) }
{
    put_eviction(
        out,
        covers(lives, temp, point),
        register_of(before, temp),
        register_of(behind, temp),
        temp,
    )
}

/// Puts that a temporary leaves a register where the instruction with a number reads, or where it writes.
fn put_leaving_at(
    out: &mut Seq<Event>,
    lives: &Lifetimes,
    number: u32,
    before: &[Option<u32>],
    left: &[Option<u32>],
    behind: &[Option<u32>],
    temp: u32,
) -> Result<(), AllocError>
    requires few { number < 2 ^ 30 }
    requires before { length before.now ≡ 26 }
    requires left { length left.now ≡ 26 }
    requires behind { length behind.now ≡ 26 }
    ensures { OnOk result
        (out.new ≡ out.old ++ leaving_at lives.now number before.now left.now behind.now temp) }
{
    let point = 2 * number;
    put_leaving(out, lives, point, before, left, temp)?;
    put_leaving(out, lives, point + 1, left, behind, temp)
}

/// Puts each of so many temporaries that leaves a register, by rising number.
fn put_all_leaving(
    out: &mut Seq<Event>,
    lives: &Lifetimes,
    temps: u32,
    number: u32,
    before: &[Option<u32>],
    left: &[Option<u32>],
    behind: &[Option<u32>],
) -> Result<(), AllocError>
    requires few { number < 2 ^ 30 }
    requires before { length before.now ≡ 26 }
    requires left { length left.now ≡ 26 }
    requires behind { length behind.now ≡ 26 }
    requires before_below { AreBelow temps before.now }
    requires left_below { AreBelow temps left.now }
    ensures { OnOk result
        (out.new ≡ out.old ++ all_leaving temps lives.now number before.now left.now behind.now) }
{
    let mut from = 0;
    while let Some(temp) = next_gone(from, before, left, behind) {
        put_leaving_at(out, lives, number, before, left, behind, temp)?;
        from = temp + 1;
    }
    Ok(())
}

/// The event of a transfer.
fn event_of(transfer: Transfer) -> Event
    ensures { result ≡ journal.event_of transfer }
{
    match transfer {
        Transfer::Store { temp, reg } => Event::Store { temp, reg },
        Transfer::Load { temp, reg } => Event::Load { temp, reg },
        Transfer::Shift { temp, from, to } => Event::Shift { temp, from, to },
    }
}

/// Puts the events of transfers.
fn put_transfers(out: &mut Seq<Event>, transfers: &[Transfer]) -> Result<(), AllocError>
    ensures { OnOk result (out.new ≡ out.old ++ map journal.event_of transfers.now) }
{
    for transfer in transfers {
        out.push(event_of(*transfer))?;
    }
    Ok(())
}

/// Puts that a transfer gives a temporary a register, if it loads one.
fn put_loaded(out: &mut Seq<Event>, transfer: Transfer) -> Result<(), AllocError>
    ensures { OnOk result (out.new ≡ out.old ++ assigned_by_move transfer) }
{
    match transfer {
        Transfer::Store { .. } => Ok(()),
        Transfer::Load { temp, reg } => out.push(Event::Assign { temp, reg }),
        Transfer::Shift { .. } => Ok(()),
    }
}

/// Puts which registers transfers give to temporaries.
fn put_all_loaded(out: &mut Seq<Event>, transfers: &[Transfer]) -> Result<(), AllocError>
    ensures { OnOk result (out.new ≡ out.old ++ flat_map assigned_by_move transfers.now) }
{
    for transfer in transfers {
        put_loaded(out, *transfer)?;
    }
    Ok(())
}

/// Puts that a temporary gets a register, unless it keeps that one.
fn put_assigned(
    out: &mut Seq<Event>,
    kept: Option<u8>,
    temp: u32,
    reg: u8,
) -> Result<(), AllocError>
    ensures { OnOk result (out.new ≡ out.old ++ assigned_unless kept temp reg) }
{
    match kept {
        None => out.push(Event::Assign { temp, reg }),
        Some(other) => {
            if other == reg {
                Ok(())
            } else {
                out.push(Event::Assign { temp, reg })
            }
        }
    }
}

/// Puts what an instruction writes, where this stands in registers before.
#[tactic(auto, using(crate::proofs::Loops::no_write, crate::proofs::Loops::one_write))]
fn put_writes(
    out: &mut Seq<Event>,
    written: Option<Written>,
    left: &[Option<u32>],
) -> Result<(), AllocError>
    requires { length left.now ≡ 26 }
    ensures { OnOk result
        (out.new ≡ out.old ++ assignments left.now (written_pairs written) ++ write_events (written_pairs written)) }
{
    match written {
        None => Ok(()),
        Some(w) => {
            put_assigned(out, register_of(left, w.temp), w.temp, w.register)?;
            out.push(Event::Write {
                temp: w.temp,
                reg: w.register,
            })
        }
    }
}

/// Puts the events of the visit of an instruction with a number, its transfers and its registers.
pub(crate) fn put_visit(
    alloc: Global,
    out: &mut Seq<Event>,
    lives: &Lifetimes,
    temps: u32,
    number: u32,
    insn: &TempInsn,
    transfers: &[Transfer],
    registers: &[u8],
    holders: &mut [Option<u32>],
) -> Result<(), AllocError>
    requires few { number < 2 ^ 30 }
    requires many { length holders.old ≡ 26 }
    requires below { AreBelow temps holders.old }
    requires inside { UsesRegisters reads_of writes_of temps insn.now }
    requires transfers { All (IsTransfer temps IsGivenRegister) transfers.now }
    requires registers { All IsGivenRegister registers.now }
    ensures events { OnOk result
        (out.new ≡ out.old ++ visit_by temps lives.now number insn.now transfers.now registers.now holders.old) }
    ensures behind { OnOk result
        (holders.new ≡ holders_behind insn.now transfers.now registers.now holders.old) }
{
    let before = Vec::from_slice(alloc, holders)?;
    move_all(holders, transfers);
    leave_all(holders, insn);
    let left = Vec::from_slice(alloc, holders)?;
    let written = written_with(insn, registers);
    write(holders, written);
    out.push(Event::Visit(number))?;
    put_all_leaving(
        out,
        lives,
        temps,
        number,
        before.as_slice(),
        left.as_slice(),
        holders,
    )?;
    put_transfers(out, transfers)?;
    put_all_loaded(out, transfers)?;
    put_writes(out, written, left.as_slice())?;
    Ok(())
}
