//! The scan of a function.

ghost use Rattle.std.specs.Prelude.{◌≡◌, ◌<◌, ◌^◌, ℕ, List, None, Some, [], take, length, slice_get, slice_index_or, IsTrue, IfOk};
ghost use Rattle.pass_core.specs.Functions.{count_of};
ghost use Rattle.temp_ir.specs.declared.insn.TempInsn.{TempInsn};
ghost use Rattle.temp_ir.specs.Insns.{reads_of, writes_of, targets_of, flows_on_of};
ghost use Rattle.alloc_rules.specs.Scan.{AreLifetimes};
ghost use Rattle.bitvector_flow.specs.Flows.{AreBounded};
ghost use Rattle.bitvector_flow.specs.Lives.{AreLive};
ghost use Rattle.binpack_blocks.specs.model.Bins.{Bins, held_in};
ghost use Rattle.binpack_blocks.specs.model.Lists.{ReadsWanted};
ghost use Rattle.binpack_blocks.specs.model.Wanted.{LifetimesRise};
ghost use Rattle.binpack_blocks.specs.model.Whole.{ScansBlocks};

use alloc_rules::scan::Lifetimes;
use binpack_blocks::bins::{GIVEN, Scan};
use binpack_blocks::block::Lists;
use binpack_blocks::blocks::Maps;
use binpack_blocks::fixed_uses::FixedUses;
use bitvector_flow::Flow;
use bk_bits::BitSet;
use bk_containers::Seq;
use pass_core::block::Block;
use pass_core::function::Func;
use std::alloc::{AllocError, Global};
use temp_ir::insn::TempInsn;

/// What a scan says of a function: the maps of its blocks, and the lists of its instructions.
#[derive(Drop)]
pub(crate) struct Placed {
    pub(crate) maps: Maps,
    pub(crate) lists: Lists,
}

/// A scan of a function, in which each temporary has its slot, and no instruction was visited.
fn new_scan(alloc: Global, f: &Func<TempInsn>) -> Result<Scan, AllocError>
    ensures none { IfOk result (λ s. (r : ℕ) → held_in s.bins.items r ≡ None) }
    ensures temps { IfOk result (λ s. s.temps ≡ f.now.temps) }
{
    let temps = f.temps;
    let fixed = FixedUses::of(alloc, f.blocks.as_slice())?;
    let mut bins = Vec::new(alloc);
    bins.resize(GIVEN as usize, None)?;
    let relied = BitSet::new(alloc, temps)?;
    Ok(Scan {
        temps,
        bins,
        made: Vec::new(alloc),
        relied,
        fixed,
    })
}

/// The block at a place.
fn block_at(blocks: &[Block<TempInsn>], place: usize) -> &Block<TempInsn>
    requires { place < length blocks.now }
    ensures { slice_get blocks.now place ≡ Some result.now }
{
    &blocks[place]
}

/// The set at a place.
fn set_at(sets: &[BitSet], place: usize) -> &BitSet
    requires { place < length sets.now }
    ensures { result.now ≡ slice_index_or sets.now place [] }
{
    &sets[place]
}

/// Scans the blocks of a function in linear order, where these are live at their tops.
pub(crate) fn scan_blocks(
    alloc: Global,
    f: &Func<TempInsn>,
    lives: &Lifetimes,
    tops: &[BitSet],
) -> Result<Placed, AllocError>
    requires tops { AreBounded (length f.now.blocks) f.now.temps tops.now }
    requires parts { length lives.now.parts ≡ f.now.temps }
    requires rise { LifetimesRise lives.now }
    requires wanted { (b : ℕ) (insns : List TempInsn) → slice_get f.now.blocks b ≡ Some insns
        → ReadsWanted lives.now (count_of (take b f.now.blocks)) insns }
    ensures { IfOk result (λ p. (bins : Bins)
        × ScansBlocks f.now.temps lives.now f.now.blocks tops.now (length f.now.blocks) p.maps p.lists bins) }
{
    let mut scan = new_scan(alloc, f)?;
    let mut maps = Maps {
        top: Seq::new(alloc),
        bottom: Seq::new(alloc),
    };
    let mut lists = Lists {
        transfers: Seq::new(alloc),
        registers: Seq::new(alloc),
    };
    let mut number = 0;
    for place in 0..f.blocks.len() {
        let block = block_at(f.blocks.as_slice(), place);
        number = scan.scan_placed(
            alloc,
            &mut maps,
            &mut lists,
            block,
            set_at(tops, place),
            lives,
            number,
        )?;
    }
    Ok(Placed { maps, lists })
}

/// Gives the temporaries of a function registers in one scan, where these are its lifetimes and what is live in it. It
/// fails only where memory is short.
pub(crate) fn place_temporaries(
    alloc: Global,
    f: &Func<TempInsn>,
    lives: &Lifetimes,
    live: &Flow,
) -> Result<Placed, AllocError>
    requires lives { AreLifetimes f.now lives.now }
    requires live { AreLive reads_of writes_of targets_of flows_on_of f.now.blocks f.now.temps live.now.top live.now.bottom }
    ensures { IfOk result (λ p. (bins : Bins)
        × ScansBlocks f.now.temps lives.now f.now.blocks live.now.top (length f.now.blocks) p.maps p.lists bins) }
{
    let placed = scan_blocks(alloc, f, lives, live.top.as_slice())?;
    Ok(placed)
}
