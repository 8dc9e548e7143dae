//! The lines of transfers, events, maps and edges.

ghost use Rattle.std.specs.Prelude.{◌≡◌, ◌++◌, OnOk};
ghost use Rattle.temp_ir.specs.Text.{register_name};
ghost use Rattle.alloc_lines.specs.Text as text;

use alloc_model::allocation::{EdgeCode, Event, Loc, TempPlace, Transfer};
use std::alloc::AllocError;
use suifvm_ir::text_parts::{put, put_block, put_number};

/// Puts a register.
fn put_register(out: &mut Vec<u8>, register: u8) -> Result<(), AllocError>
    ensures { OnOk result (out.new.items ≡ out.old.items ++ register_name register) }
{
    put(out, "$")?;
    put_number(out, u64::from(register))
}

/// Puts the line of a temporary and a register.
fn put_move(out: &mut Vec<u8>, word: &str, temp: u32, register: u8) -> Result<(), AllocError>
    ensures { OnOk result (out.new.items ≡ out.old.items ++ text.move_line word.now temp register) }
{
    put(out, word)?;
    put(out, " t")?;
    put_number(out, u64::from(temp))?;
    put(out, " ")?;
    put_register(out, register)?;
    put(out, "\n")
}

/// Puts the line of a temporary and two registers.
fn put_shift(out: &mut Vec<u8>, temp: u32, from: u8, to: u8) -> Result<(), AllocError>
    ensures { OnOk result (out.new.items ≡ out.old.items ++ text.shift_line temp from to) }
{
    put(out, "move t")?;
    put_number(out, u64::from(temp))?;
    put(out, " ")?;
    put_register(out, from)?;
    put(out, " ")?;
    put_register(out, to)?;
    put(out, "\n")
}

/// Puts a transfer.
fn put_transfer(out: &mut Vec<u8>, transfer: &Transfer) -> Result<(), AllocError>
    ensures { OnOk result (out.new.items ≡ out.old.items ++ text.transfer_line transfer.now) }
{
    match transfer {
        Transfer::Store { temp, reg } => put_move(out, "store", *temp, *reg),
        Transfer::Load { temp, reg } => put_move(out, "load", *temp, *reg),
        Transfer::Shift { temp, from, to } => put_shift(out, *temp, *from, *to),
    }
}

/// Puts transfers.
#[tactic(auto, using(crate::proofs::Loops::transfers_next, crate::proofs::Loops::transfers_end))]
pub(crate) fn put_transfers(out: &mut Vec<u8>, transfers: &[Transfer]) -> Result<(), AllocError>
    ensures { OnOk result (out.new.items ≡ out.old.items ++ text.transfers_text transfers.now) }
{
    for transfer in transfers {
        put_transfer(out, transfer)?;
    }
    Ok(())
}

/// Puts an event.
fn put_event(out: &mut Vec<u8>, event: &Event) -> Result<(), AllocError>
    ensures { OnOk result (out.new.items ≡ out.old.items ++ text.event_line event.now) }
{
    match event {
        Event::Visit(number) => {
            put(out, "visit ")?;
            put_number(out, u64::from(*number))?;
            put(out, "\n")
        }
        Event::Assign { temp, reg } => put_move(out, "assign", *temp, *reg),
        Event::Evict { temp, reg } => put_move(out, "evict", *temp, *reg),
        Event::Store { temp, reg } => put_move(out, "store", *temp, *reg),
        Event::Load { temp, reg } => put_move(out, "load", *temp, *reg),
        Event::Shift { temp, from, to } => put_shift(out, *temp, *from, *to),
        Event::Write { temp, reg } => put_move(out, "write", *temp, *reg),
    }
}

/// Puts events.
#[tactic(auto, using(crate::proofs::Loops::events_next, crate::proofs::Loops::events_end))]
pub(crate) fn put_events(out: &mut Vec<u8>, events: &[Event]) -> Result<(), AllocError>
    ensures { OnOk result (out.new.items ≡ out.old.items ++ text.events_text events.now) }
{
    for event in events {
        put_event(out, event)?;
    }
    Ok(())
}

/// Puts a place.
fn put_place(out: &mut Vec<u8>, place: Loc) -> Result<(), AllocError>
    ensures { OnOk result (out.new.items ≡ out.old.items ++ text.place_text place) }
{
    match place {
        Loc::Reg(register) => put_register(out, register),
        Loc::Slot(temp) => {
            put(out, "s")?;
            put_number(out, u64::from(temp))
        }
    }
}

/// Puts a temporary with its place.
fn put_standing(out: &mut Vec<u8>, standing: &TempPlace) -> Result<(), AllocError>
    ensures { OnOk result (out.new.items ≡ out.old.items ++ text.standing_text standing.now) }
{
    put(out, " t")?;
    put_number(out, u64::from(standing.temp))?;
    put(out, "=")?;
    put_place(out, standing.place)
}

/// Puts temporaries with their places.
#[tactic(auto, using(crate::proofs::Loops::standings_next, crate::proofs::Loops::standings_end))]
fn put_standings(out: &mut Vec<u8>, standings: &[TempPlace]) -> Result<(), AllocError>
    ensures { OnOk result (out.new.items ≡ out.old.items ++ text.standings_text standings.now) }
{
    for standing in standings {
        put_standing(out, standing)?;
    }
    Ok(())
}

/// Puts the places at an end of a block, which a word names.
pub(crate) fn put_map(
    out: &mut Vec<u8>,
    block: u32,
    word: &str,
    standings: &[TempPlace],
) -> Result<(), AllocError>
    ensures { OnOk result (out.new.items ≡ out.old.items ++ text.map_line block word.now standings.now) }
{
    put_block(out, block)?;
    put(out, word)?;
    put_standings(out, standings)?;
    put(out, "\n")
}

/// Puts an edge with its transfers.
fn put_edge(out: &mut Vec<u8>, edge: &EdgeCode) -> Result<(), AllocError>
    ensures { OnOk result (out.new.items ≡ out.old.items ++ text.edge_lines edge.now) }
{
    put(out, "edge ")?;
    put_block(out, edge.from)?;
    put(out, " ")?;
    put_block(out, edge.to)?;
    put(out, "\n")?;
    put_transfers(out, edge.code.as_slice())
}

/// Puts edges with their transfers.
#[tactic(auto, using(crate::proofs::Loops::edges_next, crate::proofs::Loops::edges_end))]
pub(crate) fn put_edges(out: &mut Vec<u8>, edges: &[EdgeCode]) -> Result<(), AllocError>
    ensures { OnOk result (out.new.items ≡ out.old.items ++ text.edges_text edges.now) }
{
    for edge in edges {
        put_edge(out, edge)?;
    }
    Ok(())
}
