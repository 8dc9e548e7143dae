//! The least sets, found in rounds.

ghost use Rattle.std.specs.Prelude.{◌≡◌, ◌<◌, ◌||◌, List, Bool, length, IfOk};
ghost use Rattle.bitvector_flow.specs.Flows.{has_at};
ghost use Rattle.bitvector_flow.specs.model.Flows.{AreFlows};
ghost use Rattle.bitvector_flow.specs.model.Rounds.{AreBelow, turn, IsStep, AreForced, IsSwept};

use crate::sets::{empty_sets, gather, pass};
use bk_bits::BitSet;
use bk_containers::Seq;
use std::alloc::{AllocError, Global};

/// What flows out of each block, and into it.
#[derive(Drop)]
pub(crate) struct Solution {
    pub(crate) outs: Vec<BitSet>,
    pub(crate) ins: Vec<BitSet>,
}

/// Puts what the blocks next to one have into its sets, and says whether the set of what goes out grew.
fn settle(
    outs: &mut [BitSet],
    ins: &mut [BitSet],
    spare: &mut BitSet,
    nexts: &[u32],
    stops: &BitSet,
    block: usize,
) -> bool
    requires outs_inside { block < length outs.now }
    requires ins_inside { block < length ins.now }
    requires outs { AreBelow (length spare.now) outs.now }
    requires ins { AreBelow (length spare.now) ins.now }
    requires stops { length stops.now ≡ length spare.now }
    ensures step { IsStep nexts.now stops.now (length spare.old) block outs.old ins.old outs.new ins.new result }
    ensures spare { length spare.new ≡ length spare.old }
{
    gather(&mut ins[block], outs, nexts);
    pass(&mut outs[block], spare, &ins[block], stops)
}

/// The number of the block of a turn: from the last block to the first, or from the first to the last.
fn turn_of(backward: bool, count: usize, i: usize) -> usize
    requires { i < count }
    ensures block { result ≡ turn backward count i }
    ensures inside { result < count }
{
    if backward { count - 1 - i } else { i }
}

/// Whether one of two is so.
fn either(first: bool, second: bool) -> bool
    ensures { result ≡ (first || second) }
{
    first || second
}

/// Settles each block once, and says whether a set of what goes out grew.
fn round(
    outs: &mut [BitSet],
    ins: &mut [BitSet],
    spare: &mut BitSet,
    nexts: &[Seq<u32>],
    stops: &[BitSet],
    backward: bool,
) -> bool
    requires as_many { length stops.now ≡ length nexts.now }
    requires stops { AreBelow (length spare.now) stops.now }
    requires outs_length { length outs.now ≡ length nexts.now }
    requires ins_length { length ins.now ≡ length nexts.now }
    requires outs { AreBelow (length spare.now) outs.now }
    requires ins { AreBelow (length spare.now) ins.now }
    ensures swept { IsSwept nexts.now stops.now (length spare.old) backward outs.old outs.new ins.new
        (length nexts.now) result }
    ensures forced { (makes : List (List Bool)) → AreForced nexts.now makes stops.now outs.old ins.old →
        AreForced nexts.now makes stops.now outs.new ins.new }
    ensures spare { length spare.new ≡ length spare.old }
{
    let mut grew = false;
    for i in 0..nexts.len() {
        let block = turn_of(backward, nexts.len(), i);
        let changed = settle(
            outs,
            ins,
            spare,
            nexts[block].as_slice(),
            &stops[block],
            block,
        );
        grew = either(grew, changed);
    }
    grew
}

/// Settles blocks until nothing grows.
fn settle_all(
    outs: &mut [BitSet],
    ins: &mut [BitSet],
    spare: &mut BitSet,
    nexts: &[Seq<u32>],
    stops: &[BitSet],
    backward: bool,
)
    requires as_many { length stops.now ≡ length nexts.now }
    requires stops { AreBelow (length spare.now) stops.now }
    requires outs_length { length outs.now ≡ length nexts.now }
    requires ins_length { length ins.now ≡ length nexts.now }
    requires outs { AreBelow (length spare.now) outs.now }
    requires ins { AreBelow (length spare.now) ins.now }
    ensures { (makes : List (List Bool)) → AreForced nexts.now makes stops.now outs.old ins.old →
        AreFlows (has_at makes) (has_at stops.now) nexts.now (length spare.old) outs.new ins.new }
{
    while round(outs, ins, spare, nexts, stops, backward) {}
}

/// The least sets, where these are the blocks next to each, and the sets of what each makes and stops.
#[tactic(auto, using(crate::proofs::Rounds::none_forced, crate::proofs::Rounds::empty_below))]
pub(crate) fn solve_sets(
    alloc: Global,
    nexts: &[Seq<u32>],
    makes: Vec<BitSet>,
    stops: &[BitSet],
    bound: u32,
    backward: bool,
) -> Result<Solution, AllocError>
    requires as_many_makes { length makes.items ≡ length nexts.now }
    requires as_many_stops { length stops.now ≡ length nexts.now }
    requires makes { AreBelow bound makes.items }
    requires stops { AreBelow bound stops.now }
    ensures { IfOk result (λ s.
        AreFlows (has_at makes.items) (has_at stops.now) nexts.now bound s.outs.items s.ins.items) }
{
    let mut outs = makes;
    let mut ins = empty_sets(alloc, nexts.len(), bound)?;
    let mut spare = BitSet::new(alloc, bound)?;
    settle_all(
        outs.as_mut_slice(),
        ins.as_mut_slice(),
        &mut spare,
        nexts,
        stops,
        backward,
    );
    Ok(Solution { outs, ins })
}
