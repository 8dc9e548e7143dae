//! A search for branches that become far because others do, from one to the next.
//!
//! Of the spans that lie within no other one, both the starts and the ends rise. So a branch that becomes far
//! takes from the slacks of a row of them, and the one with the least slack is far next. A span is looked at once
//! no other one holds it. Each of these steps takes time in the logarithm of the number of spans.

ghost use Rattle.std.specs.Prelude.{◌≡◌, ◌+◌, ◌<◌, ◌≤◌, ◌^◌, true, false, length, slice_set, OnOk};
ghost use Rattle.std.specs.Bool.{OnTrue};
ghost use Rattle.alpha_items.specs.Layout.{sizes, is_far, IsForced};
ghost use Rattle.alpha_asm.specs.model.Sweeps.{AreTargets, near};
ghost use Rattle.alpha_asm.specs.model.Sums.{HoldsAtMost};

use crate::outermost::Outermost;
use crate::sizes::{is_branch, words_of_item};
use crate::spans::spans_of;
use crate::sums::{change_words, sums_of, words_between};
use alpha_isa::limits::BRANCH_REACH;
use alpha_items::item::AsmItem;
use std::alloc::{AllocError, Global};

/// Whether there is a branch at `i` that is not far, and that does not reach.
fn is_too_far(items: &[AsmItem], targets: &[usize], far: &[bool], sums: &[u32], i: usize) -> bool
    requires inside { i < length items.now }
    requires targets { AreTargets items.now targets.now }
    requires far { length far.now ≡ length items.now }
    requires sums { HoldsAtMost (sizes items.now far.now) sums.now }
    ensures near { OnTrue result (is_far far.now i ≡ false) }
    ensures forced { OnTrue result (IsForced items.now far.now → IsForced items.now (slice_set far.now i true)) }
{
    if far[i] || !is_branch(&items[i]) {
        return false;
    }
    let target = targets[i];
    if i < target {
        words_between(sums, i + 1, target) >= BRANCH_REACH
    } else {
        words_between(sums, target, i) >= BRANCH_REACH
    }
}

/// Makes the branch at `i` far, if there is one that does not reach. Answers whether it did.
#[tactic(auto, using(crate::proofs::Growth::held_more, crate::proofs::Growth::near_less))]
fn make_far(
    items: &[AsmItem],
    targets: &[usize],
    far: &mut [bool],
    sums: &mut [u32],
    i: usize,
) -> bool
    requires targets { AreTargets items.now targets.now }
    requires far { length far.old ≡ length items.now }
    requires sums { HoldsAtMost (sizes items.now far.old) sums.old }
    ensures far { length far.new ≡ length items.now }
    ensures sums { HoldsAtMost (sizes items.now far.new) sums.new }
    ensures forced { IsForced items.now far.old → IsForced items.now far.new }
    ensures fewer { near far.new ≤ near far.old }
{
    if i >= items.len() {
        return false;
    }
    if !is_too_far(items, targets, far, sums, i) {
        return false;
    }
    far[i] = true;
    change_words(items, far, sums, i);
    true
}

/// Makes branches far until all outermost spans have room.
fn follow(
    items: &[AsmItem],
    targets: &[usize],
    far: &mut [bool],
    sums: &mut [u32],
    outermost: &mut Outermost,
)
    requires targets { AreTargets items.now targets.now }
    requires far { length far.old ≡ length items.now }
    requires sums { HoldsAtMost (sizes items.now far.old) sums.old }
    ensures far { length far.new ≡ length items.now }
    ensures forced { IsForced items.now far.old → IsForced items.now far.new }
    ensures fewer { near far.new ≤ near far.old }
{
    for _turn in 0..items.len() {
        let Some(branch) = outermost.overfull() else {
            return;
        };
        if !make_far(items, targets, far, sums, branch) {
            return;
        }
        outermost.remove(more_words(items, branch), sums);
    }
}

/// How many words more an item has where it is far.
fn more_words(items: &[AsmItem], i: usize) -> u64 {
    match items.get(i) {
        Some(item) => words_of_item(item, true).saturating_sub(words_of_item(item, false)),
        None => 0,
    }
}

/// Makes those branches far that do not reach, and all that become far by them. `places` has the places of the
/// items.
pub(crate) fn spread(
    alloc: Global,
    items: &[AsmItem],
    targets: &[usize],
    far: &mut [bool],
    places: &[u64],
) -> Result<(), AllocError>
    requires few { length items.now < 2 ^ 60 }
    requires targets { AreTargets items.now targets.now }
    requires far { length far.old ≡ length items.now }
    ensures far { length far.new ≡ length items.now }
    ensures forced { IsForced items.now far.old → IsForced items.now far.new }
    ensures fewer { near far.new ≤ near far.old }
{
    let mut sums = sums_of(alloc, items, far)?;
    let spans = spans_of(alloc, items, targets, far, places)?;
    let mut outermost = Outermost::new(alloc, spans, places)?;
    follow(items, targets, far, sums.as_mut_slice(), &mut outermost);
    Ok(())
}
