//! One set from others.

ghost use Rattle.std.specs.Prelude.{◌≡◌, ◌≢◌, ℕ, ◌||◌, ◌&&◌, not, false, length, replicate, IfOk};
ghost use Rattle.std.specs.Bool.{OnTrue, OnFalse};
ghost use Rattle.bk_bits.specs.Sets.{has};
ghost use Rattle.bitvector_flow.specs.Flows.{has_at};
ghost use Rattle.bitvector_flow.specs.model.Rounds.{any_has, AreBelow};

use bk_bits::BitSet;
use std::alloc::{AllocError, Global};

/// So many empty sets.
#[tactic(auto, using(crate::proofs::Unions::one_more))]
pub(crate) fn empty_sets(alloc: Global, count: usize, bound: u32) -> Result<Vec<BitSet>, AllocError>
    ensures { IfOk result (λ sets. sets.items ≡ replicate count (replicate bound false)) }
{
    let mut sets = Vec::new(alloc);
    for made in 0..count {
        sets.push(BitSet::new(alloc, bound)?)?;
    }
    Ok(sets)
}

/// Puts the members of the set with a number into another one, where there is such a set.
fn add_set(into: &mut BitSet, sets: &[BitSet], number: u32)
    requires { AreBelow (length into.now) sets.now }
    ensures bound { length into.new ≡ length into.old }
    ensures members { (k : ℕ) → has into.new k ≡ (has into.old k || has_at sets.now number k) }
{
    if number as usize >= sets.len() {
        return;
    }
    let _grew = into.union_with(&sets[number as usize]);
}

/// Puts the members of the sets with these numbers into another one.
pub(crate) fn gather(into: &mut BitSet, sets: &[BitSet], numbers: &[u32])
    requires { AreBelow (length into.now) sets.now }
    ensures bound { length into.new ≡ length into.old }
    ensures members { (k : ℕ) → has into.new k ≡ (has into.old k || any_has sets.now numbers.now k) }
{
    for number in numbers {
        add_set(into, sets, *number);
    }
}

/// Puts what comes into a block and is not stopped into the set of what goes out of it, and says whether that grew.
pub(crate) fn pass(out: &mut BitSet, spare: &mut BitSet, into: &BitSet, stops: &BitSet) -> bool
    requires out { length out.now ≡ length spare.now }
    requires into { length into.now ≡ length spare.now }
    requires stops { length stops.now ≡ length spare.now }
    ensures bound { length out.new ≡ length out.old }
    ensures spare { length spare.new ≡ length spare.old }
    ensures members { (k : ℕ) → has out.new k ≡ (has out.old k || (has into.now k && not (has stops.now k))) }
    ensures same { OnFalse result (out.new ≡ out.old) }
    ensures changed { OnTrue result (out.new ≢ out.old) }
{
    spare.copy_from(into);
    spare.subtract(stops);
    out.union_with(spare)
}
