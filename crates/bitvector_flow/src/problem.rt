//! Problems of what flows between blocks, and how they are solved.

ghost use Rattle.std.specs.Prelude.{◌≡◌, ℕ, ◌<◌, ◌^◌, ◌&&◌, ◌||◌, ◌==◌, nat_lt, Bool, length, IfOk};
ghost use Rattle.std.specs.Bool.{MatchBool};
ghost use Rattle.bk_bits.specs.Sets.{has};
ghost use Rattle.bitvector_flow.specs.Flows.{AreLeast};
ghost use Rattle.bitvector_flow.specs.model.Tested.{AreTested};

use crate::flow::Flow;
use crate::settling::{Solution, solve_sets};
use bk_bits::BitSet;
use bk_containers::Seq;
use cfg::Graph;
use std::alloc::{AllocError, Global};

/// What each block makes and stops, of numbers below a bound, and which way what it makes flows.
pub trait Problem {
    ghost bound: { Self → ℕ };

    ghost made: { Self → ℕ → ℕ → Bool };

    ghost stopped: { Self → ℕ → ℕ → Bool };

    ghost goes_back: { Self → Bool };

    /// The bound: numbers are below it.
    fn size(&self) -> u32
        ensures { result ≡ bound self.now };

    /// Whether a block makes a number.
    fn makes(&self, block: u32, k: u32) -> bool
        requires { k < bound self.now }
        ensures { result ≡ made self.now block k };

    /// Whether a block stops a number.
    fn stops(&self, block: u32, k: u32) -> bool
        requires { k < bound self.now }
        ensures { result ≡ stopped self.now block k };

    /// Whether what a block makes flows to the blocks that come before it, and not to those that may follow it.
    fn backward(&self) -> bool
        ensures { result ≡ goes_back self.now };
}

/// The numbers that a block makes.
fn made_set<P: Problem>(alloc: Global, problem: &P, block: u32) -> Result<BitSet, AllocError>
    ensures bound { IfOk result (λ set. length set ≡ P.bound problem.now) }
    ensures members { IfOk result (λ set.
        (k : ℕ) → has set k ≡ (nat_lt k (P.bound problem.now) && P.made problem.now block k)) }
{
    let size = problem.size();
    let mut set = BitSet::new(alloc, size)?;
    for k in 0..size {
        put_if(&mut set, k, problem.makes(block, k));
    }
    Ok(set)
}

/// The numbers that a block stops.
fn stopped_set<P: Problem>(alloc: Global, problem: &P, block: u32) -> Result<BitSet, AllocError>
    ensures bound { IfOk result (λ set. length set ≡ P.bound problem.now) }
    ensures members { IfOk result (λ set.
        (k : ℕ) → has set k ≡ (nat_lt k (P.bound problem.now) && P.stopped problem.now block k)) }
{
    let size = problem.size();
    let mut set = BitSet::new(alloc, size)?;
    for k in 0..size {
        put_if(&mut set, k, problem.stops(block, k));
    }
    Ok(set)
}

/// Puts a number into a set where a test holds.
fn put_if(set: &mut BitSet, k: u32, test: bool)
    requires { k < length set.now }
    ensures bound { length set.new ≡ length set.old }
    ensures members { (j : ℕ) → has set.new j ≡ (has set.old j || ((k == j) && test)) }
{
    if test {
        set.insert(k);
    }
}

/// The numbers that each of so many blocks makes.
fn made_sets<P: Problem>(
    alloc: Global,
    problem: &P,
    count: usize,
) -> Result<Vec<BitSet>, AllocError>
    requires { count < 2 ^ 32 }
    ensures { IfOk result (λ sets. AreTested count (P.bound problem.now) (P.made problem.now) sets.items) }
{
    let mut sets = Vec::new(alloc);
    for block in 0..count {
        sets.push(made_set(alloc, problem, block as u32)?)?;
    }
    Ok(sets)
}

/// The numbers that each of so many blocks stops.
fn stopped_sets<P: Problem>(
    alloc: Global,
    problem: &P,
    count: usize,
) -> Result<Vec<BitSet>, AllocError>
    requires { count < 2 ^ 32 }
    ensures { IfOk result (λ sets. AreTested count (P.bound problem.now) (P.stopped problem.now) sets.items) }
{
    let mut sets = Vec::new(alloc);
    for block in 0..count {
        sets.push(stopped_set(alloc, problem, block as u32)?)?;
    }
    Ok(sets)
}

/// The least sets, where these are the blocks next to each.
fn solve_along<P: Problem>(
    alloc: Global,
    nexts: &[Seq<u32>],
    problem: &P,
) -> Result<Solution, AllocError>
    requires { length nexts.now < 2 ^ 32 }
    ensures { IfOk result (λ s. AreLeast (P.made problem.now) (P.stopped problem.now) nexts.now
        (P.bound problem.now) s.outs.items s.ins.items) }
{
    let makes = made_sets(alloc, problem, nexts.len())?;
    let stops = stopped_sets(alloc, problem, nexts.len())?;
    solve_sets(
        alloc,
        nexts,
        makes,
        stops.as_slice(),
        problem.size(),
        problem.backward(),
    )
}

/// The least sets that solve a problem over a flow graph: what flows out of each block, and what flows into it. Where
/// it flows backward, the first stand at the tops of the blocks and the second at their bottoms, and else the other way
/// round. It fails only where memory is short.
pub fn solve<P: Problem>(alloc: Global, graph: &Graph, problem: &P) -> Result<Flow, AllocError>
    requires many { length graph.now.succ < 2 ^ 32 }
    requires pred { length graph.now.pred ≡ length graph.now.succ }
    ensures { IfOk result (λ flow. MatchBool (P.goes_back problem.now)
        (AreLeast (P.made problem.now) (P.stopped problem.now) graph.now.succ
        (P.bound problem.now) flow.top flow.bottom)
        (AreLeast (P.made problem.now) (P.stopped problem.now) graph.now.pred
        (P.bound problem.now) flow.bottom flow.top)) }
{
    if problem.backward() {
        let Solution { outs, ins } = solve_along(alloc, graph.succ.as_slice(), problem)?;
        return Ok(Flow {
            top: Seq::from_vec(outs),
            bottom: Seq::from_vec(ins),
        });
    }
    let Solution { outs, ins } = solve_along(alloc, graph.pred.as_slice(), problem)?;
    Ok(Flow {
        top: Seq::from_vec(ins),
        bottom: Seq::from_vec(outs),
    })
}
