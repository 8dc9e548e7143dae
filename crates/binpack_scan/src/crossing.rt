//! The code of an edge, from the map at a bottom to one at a top.

ghost use Rattle.std.specs.Prelude.{◌≡◌, ◌+◌, ◌++◌, ◌<◌, ℕ, List, [], flat_map, length, slice_index_or, IfOk, OnOk};
ghost use Rattle.par_move.specs.Moves.{ParallelMove, HasLength};
ghost use Rattle.bk_bits.specs.Sets.{has};
ghost use Rattle.binpack_scan.specs.model.Edges.{register_for, store_with, store_of, move_with, move_of, load_with, load_of, shifts, held_with, IsHeld, IsMap, IsCodeBetween, AreInSets};
ghost use Rattle.binpack_scan.specs.model.Edges as edges;

use alloc_model::allocation::{Loc, TempPlace, Transfer};
use bk_bits::BitSet;
use bk_containers::Seq;
use par_move::{Move, sequence};
use std::alloc::{AllocError, Global};

/// The register that no temporary is given.
const SCRATCH: u8 = 28;

/// The number of registers that a `u8` can name.
const NAMED: usize = 256;

/// The register of a place, if it is one.
fn register_at(place: Loc) -> Option<u8>
    ensures { result ≡ edges.register_at place }
{
    match place {
        Loc::Reg(r) => Some(r),
        Loc::Slot(_) => None,
    }
}

/// The register of a temporary by a map, if it has one.
#[tactic(auto, using(crate::proofs::Crossings::for_next, crate::proofs::Crossings::for_found, crate::proofs::Crossings::for_end))]
fn find_register(places: &[TempPlace], temp: u32) -> Option<u8>
    ensures { result ≡ register_for places.now temp }
{
    for s in places {
        if s.temp == temp {
            return register_at(s.place);
        }
    }
    None
}

/// Whether a temporary is in the set of a block.
fn is_member(sets: &[BitSet], block: u32, temp: u32) -> bool
    requires { (b : ℕ) → b < length sets.now → temp < length (slice_index_or sets.now b []) }
    ensures { result ≡ has (slice_index_or sets.now block []) temp }
{
    match sets.get(block as usize) {
        None => false,
        Some(set) => set.test(temp),
    }
}

/// Puts a store of a temporary that is to be stored and stands in a register.
fn put_store(
    code: &mut Seq<Transfer>,
    is_stored: bool,
    temp: u32,
    register: Option<u8>,
) -> Result<(), AllocError>
    ensures { OnOk result (code.new ≡ code.old ++ store_with is_stored temp register) }
{
    if !is_stored {
        return Ok(());
    }
    match register {
        None => Ok(()),
        Some(reg) => code.push(Transfer::Store { temp, reg }),
    }
}

/// Puts a move between registers.
fn put_move(moves: &mut Vec<Move>, from: Option<u8>, to: Option<u8>) -> Result<(), AllocError>
    ensures { OnOk result (moves.new.items ≡ moves.old.items ++ move_with from to) }
{
    match from {
        None => Ok(()),
        Some(from) => match to {
            None => Ok(()),
            Some(to) => {
                moves.push(Move { from, to })?;
                Ok(())
            }
        },
    }
}

/// Puts a load of a temporary that has its slot.
fn put_load(
    code: &mut Seq<Transfer>,
    temp: u32,
    from: Option<u8>,
    to: Option<u8>,
) -> Result<(), AllocError>
    ensures { OnOk result (code.new ≡ code.old ++ load_with temp from to) }
{
    match from {
        Some(_) => Ok(()),
        None => match to {
            None => Ok(()),
            Some(reg) => code.push(Transfer::Load { temp, reg }),
        },
    }
}

/// Whether a temporary is stored on the way to a block: it is live there, and its slot is wanted there.
fn is_stored(live: bool, need: bool, top: Option<u8>) -> bool
    ensures { result ≡ edges.is_stored live need top }
{
    match top {
        None => live,
        Some(_) => live && need,
    }
}

/// Puts the stores on the way to a block, where these are live and needed at the tops of blocks.
fn put_stores(
    code: &mut Seq<Transfer>,
    bottom: &[TempPlace],
    top: &[TempPlace],
    lives: &[BitSet],
    needs: &[BitSet],
    to: u32,
) -> Result<(), AllocError>
    requires lives { AreInSets bottom.now lives.now }
    requires needs { AreInSets bottom.now needs.now }
    ensures { OnOk result (code.new ≡ code.old ++ flat_map (store_of (slice_index_or lives.now to [])
        (slice_index_or needs.now to []) top.now) bottom.now) }
{
    for s in bottom {
        let live = is_member(lives, to, s.temp);
        let need = is_member(needs, to, s.temp);
        let stored = is_stored(live, need, find_register(top, s.temp));
        put_store(code, stored, s.temp, register_at(s.place))?;
    }
    Ok(())
}

/// The moves of what stands in registers at both ends.
fn moves_between(
    alloc: Global,
    bottom: &[TempPlace],
    top: &[TempPlace],
) -> Result<Vec<Move>, AllocError>
    ensures { IfOk result (λ moves. moves.items ≡ flat_map (move_of bottom.now) top.now) }
{
    let mut moves = Vec::new(alloc);
    for s in top {
        put_move(
            &mut moves,
            find_register(bottom, s.temp),
            register_at(s.place),
        )?;
    }
    Ok(moves)
}

/// Puts the loads of what stands in a register at the top alone.
fn put_loads(
    code: &mut Seq<Transfer>,
    bottom: &[TempPlace],
    top: &[TempPlace],
) -> Result<(), AllocError>
    ensures { OnOk result (code.new ≡ code.old ++ flat_map (load_of bottom.now) top.now) }
{
    for s in top {
        put_load(
            code,
            s.temp,
            find_register(bottom, s.temp),
            register_at(s.place),
        )?;
    }
    Ok(())
}

/// A temporary stands in a register, if it does.
fn hold(holders: &mut [u32], temp: u32, register: Option<u8>)
    requires { length holders.old ≡ 256 }
    ensures { holders.new ≡ held_with temp register holders.old }
{
    match register {
        None => {}
        Some(r) => holders[r as usize] = temp,
    }
}

/// Which temporary stands in each register.
fn hold_all(holders: &mut [u32], bottom: &[TempPlace])
    requires many { length holders.old ≡ 256 }
    requires map { IsMap bottom.now }
    ensures { IsHeld bottom.now (length bottom.now) holders.new }
{
    for s in bottom {
        hold(holders, s.temp, register_at(s.place));
    }
}

/// Puts moves as shifts of the temporaries that stand in their sources.
fn put_shifts(
    code: &mut Seq<Transfer>,
    made: &[Move],
    holders: &mut [u32],
) -> Result<(), AllocError>
    requires { length holders.old ≡ 256 }
    ensures { OnOk result (code.new ≡ code.old ++ shifts made.now holders.old) }
{
    for m in made {
        let temp = holders[m.from as usize];
        code.push(Transfer::Shift {
            temp,
            from: m.from,
            to: m.to,
        })?;
        holders[m.to as usize] = temp;
    }
    Ok(())
}

/// Puts moves as shifts of what stands at a bottom.
fn put_moves(
    code: &mut Seq<Transfer>,
    bottom: &[TempPlace],
    made: &[Move],
) -> Result<(), AllocError>
    requires { IsMap bottom.now }
    ensures { OnOk result ((holders : List ℕ) × IsHeld bottom.now (length bottom.now) holders
        × (code.new ≡ code.old ++ shifts made.now holders)) }
{
    let mut holders: [u32; NAMED] = [0; NAMED];
    hold_all(&mut holders, bottom);
    put_shifts(code, made, &mut holders)?;
    Ok(())
}

/// The code of an edge to a block, between the maps at its ends, where these are live and needed at the tops of blocks.
pub(crate) fn code_between(
    alloc: Global,
    bottom: &[TempPlace],
    top: &[TempPlace],
    lives: &[BitSet],
    needs: &[BitSet],
    to: u32,
) -> Result<Seq<Transfer>, AllocError>
    requires bottom { IsMap bottom.now }
    requires top { IsMap top.now }
    requires lives { AreInSets bottom.now lives.now }
    requires needs { AreInSets bottom.now needs.now }
    ensures { IfOk result (IsCodeBetween bottom.now top.now (slice_index_or lives.now to [])
        (slice_index_or needs.now to [])) }
{
    let moves = moves_between(alloc, bottom, top)?;
    let made = sequence(alloc, moves.as_slice(), SCRATCH)?;
    let mut code = Seq::new(alloc);
    put_stores(&mut code, bottom, top, lives, needs, to)?;
    put_moves(&mut code, bottom, made.as_slice())?;
    put_loads(&mut code, bottom, top)?;
    Ok(code)
}
