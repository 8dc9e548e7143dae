//! The events of a visit.

ghost use Rattle.std.specs.Prelude.{◌≡◌, ◌+◌, ◌++◌, ◌<◌, ◌^◌, [], ◌∷◌, map, flat_map, length, slice_index_or, nat_le, IfOk, OnOk};
ghost use Rattle.pass_core.specs.Functions.{UsesRegisters};
ghost use Rattle.temp_ir.specs.Insns.{reads_of, writes_of};
ghost use Rattle.alloc_model.specs.declared.allocation.Event.TheVariants as event;
ghost use Rattle.alloc_rules.specs.Journal.{eviction, assigned_by_move, assigned_unless};
ghost use Rattle.alloc_rules.specs.Journal as journal;
ghost use Rattle.alloc_plain.specs.model.Held.{Holds, held_behind};
ghost use Rattle.alloc_plain.specs.model.Visits.{leaving_events, leaving_at, all_leaving, assignment_events, write_events, visit_in_slots};

use crate::holders::{HeldTemporaries, held_left, next_held, register_of, writes_come};
use alloc_model::allocation::{Event, Transfer};
use alloc_plain_lists::{read_count, transfers};
use bk_containers::Seq;
use pass_core::Insn;
use std::alloc::{AllocError, Global};
use temp_ir::insn::TempInsn;

/// Puts that a temporary leaves a register, where its lifetime covers the point and it has no register behind it.
fn put_eviction(
    out: &mut Seq<Event>,
    covered: bool,
    before: Option<u8>,
    behind: Option<u8>,
    temp: u32,
) -> Result<(), AllocError>
    ensures { OnOk result (out.new ≡ out.old ++ eviction covered before behind temp) }
{
    let Some(reg) = before else {
        return Ok(());
    };
    if behind.is_some() {
        return Ok(());
    }
    if covered {
        out.push(Event::Evict { temp, reg })
    } else {
        Ok(())
    }
}

/// Puts that a temporary leaves a register at a point, if it does.
fn put_leaving(
    out: &mut Seq<Event>,
    ends: &[u32],
    point: u32,
    before: HeldTemporaries,
    behind: HeldTemporaries,
    temp: u32,
) -> Result<(), AllocError>
    requires { temp < length ends.now }
    ensures { OnOk result (out.new ≡ out.old ++ leaving_events ends.now point before behind temp) }
{
    let covered = point <= ends[temp as usize];
    put_eviction(
        out,
        covered,
        register_of(before, temp),
        register_of(behind, temp),
        temp,
    )
}

/// An instruction that is visited: its number, and what is held before it, before its writes and behind it.
#[derive(Clone, Copy)]
struct Visit {
    number: u32,
    before: HeldTemporaries,
    left: HeldTemporaries,
    behind: HeldTemporaries,
}

/// Puts that a temporary leaves a register where an instruction reads, or where it writes.
fn put_leaving_at(
    out: &mut Seq<Event>,
    ends: &[u32],
    visit: Visit,
    temp: u32,
) -> Result<(), AllocError>
    requires inside { temp < length ends.now }
    requires few { visit.number < 2 ^ 30 }
    ensures { OnOk result
        (out.new ≡ out.old ++ leaving_at ends.now visit.number visit.before visit.left visit.behind temp) }
{
    let point = 2 * visit.number;
    put_leaving(out, ends, point, visit.before, visit.left, temp)?;
    put_leaving(out, ends, point + 1, visit.left, visit.behind, temp)
}

/// Puts each temporary that leaves a register, by rising number.
fn put_all_leaving(out: &mut Seq<Event>, ends: &[u32], visit: Visit) -> Result<(), AllocError>
    requires few { visit.number < 2 ^ 30 }
    requires few_ends { length ends.now < 2 ^ 32 }
    requires before { Holds (λ t. t < length ends.now) visit.before }
    requires left { Holds (λ t. t < length ends.now) visit.left }
    ensures { OnOk result
        (out.new ≡ out.old ++ all_leaving ends.now visit.number visit.before visit.left visit.behind) }
{
    let mut from = 0;
    while let Some(temp) = next_held(from, visit.before, visit.left) {
        put_leaving_at(out, ends, visit, temp)?;
        from = temp + 1;
    }
    Ok(())
}

/// The event of a transfer.
fn event_of(transfer: Transfer) -> Event
    ensures { result ≡ journal.event_of transfer }
{
    match transfer {
        Transfer::Store { temp, reg } => Event::Store { temp, reg },
        Transfer::Load { temp, reg } => Event::Load { temp, reg },
        Transfer::Shift { temp, from, to } => Event::Shift { temp, from, to },
    }
}

/// Puts the events of transfers.
fn put_transfers(out: &mut Seq<Event>, transfers: &[Transfer]) -> Result<(), AllocError>
    ensures { OnOk result (out.new ≡ out.old ++ map journal.event_of transfers.now) }
{
    for transfer in transfers {
        out.push(event_of(*transfer))?;
    }
    Ok(())
}

/// Puts that a transfer gives a temporary a register, if it loads one.
fn put_loaded(out: &mut Seq<Event>, transfer: Transfer) -> Result<(), AllocError>
    ensures { OnOk result (out.new ≡ out.old ++ assigned_by_move transfer) }
{
    match transfer {
        Transfer::Store { .. } => Ok(()),
        Transfer::Load { temp, reg } => out.push(Event::Assign { temp, reg }),
        Transfer::Shift { .. } => Ok(()),
    }
}

/// Puts which registers transfers give to temporaries.
fn put_all_loaded(out: &mut Seq<Event>, transfers: &[Transfer]) -> Result<(), AllocError>
    ensures { OnOk result (out.new ≡ out.old ++ flat_map assigned_by_move transfers.now) }
{
    for transfer in transfers {
        put_loaded(out, *transfer)?;
    }
    Ok(())
}

/// Puts that a temporary gets a register, unless it keeps that one.
fn put_assigned(
    out: &mut Seq<Event>,
    kept: Option<u8>,
    temp: u32,
    reg: u8,
) -> Result<(), AllocError>
    ensures { OnOk result (out.new ≡ out.old ++ assigned_unless kept temp reg) }
{
    match kept {
        None => out.push(Event::Assign { temp, reg }),
        Some(other) => {
            if other == reg {
                Ok(())
            } else {
                out.push(Event::Assign { temp, reg })
            }
        }
    }
}

/// Puts what an instruction writes, where this is held before.
#[tactic(auto, using(crate::proofs::Comes::no_write, crate::proofs::Comes::one_write))]
fn put_writes(
    out: &mut Seq<Event>,
    insn: &TempInsn,
    left: HeldTemporaries,
) -> Result<(), AllocError>
    ensures { OnOk result
        (out.new ≡ out.old ++ assignment_events (1 + length (reads_of insn.now)) left (writes_of insn.now)
        ++ write_events (1 + length (reads_of insn.now)) (writes_of insn.now)) }
{
    let Some(temp) = insn.write_at(0) else {
        return Ok(());
    };
    let reg = 1 + read_count(insn);
    put_assigned(out, register_of(left, temp), temp, reg)?;
    out.push(Event::Write { temp, reg })
}

/// Puts the events of the visit of an instruction with a number, behind another one of its block if there is one, and
/// gives what is held behind it.
pub(crate) fn put_visit(
    alloc: Global,
    out: &mut Seq<Event>,
    ends: &[u32],
    number: u32,
    previous: Option<TempInsn>,
    insn: &TempInsn,
    held: HeldTemporaries,
) -> Result<HeldTemporaries, AllocError>
    requires few { number < 2 ^ 30 }
    requires few_ends { length ends.now < 2 ^ 32 }
    requires inside { UsesRegisters reads_of writes_of (length ends.now) insn.now }
    requires held { Holds (λ t. t < length ends.now) held }
    ensures events { OnOk result (out.new ≡ out.old ++ visit_in_slots ends.now number previous insn.now held) }
    ensures behind { IfOk result (λ h. h ≡ held_behind insn.now held) }
{
    let left = held_left(held, insn);
    let behind = writes_come(left, insn);
    let visit = Visit {
        number,
        before: held,
        left,
        behind,
    };
    let moves = transfers(alloc, previous, insn)?;
    out.push(Event::Visit(number))?;
    put_all_leaving(out, ends, visit)?;
    put_transfers(out, moves.as_slice())?;
    put_all_loaded(out, moves.as_slice())?;
    put_writes(out, insn, left)?;
    Ok(behind)
}
