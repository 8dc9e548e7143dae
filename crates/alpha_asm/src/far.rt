//! Which branches of a text are far.
//!
//! A branch that does not reach makes those longer that pass over it, so that they may no longer reach. A
//! sweep from the end settles every branch to a label behind it, since the words between stand behind the
//! branch; a sweep from the front settles every other one. Where the second one finds branches, those may make
//! others far in both directions, and a search goes from branch to branch (`spread`). Both go on until a sweep
//! finds none.

ghost use Rattle.std.specs.Prelude.{◌≡◌, ℕ, ◌+◌, ◌<◌, ◌≤◌, ◌^◌, List, Bool, length, slice_index, IfOk, OnOk};
ghost use Rattle.std.specs.Bool.{OnTrue, OnFalse, MatchBool};
ghost use Rattle.alpha_items.specs.Layout.{item_place, AllReach, IsForced, IsLeastFar};
ghost use Rattle.alpha_asm.specs.model.Sweeps.{AreTargets, SweptBack, SweptForth, BackReachesAt, ForthReachesAt, TooFarBack, TooFarForth, GrowsWhere, ArePlaces, near};

use crate::sizes::{is_branch, words_of_item};
use crate::spread::spread;
use alpha_isa::limits::BRANCH_REACH;
use alpha_items::item::AsmItem;
use std::alloc::{AllocError, Global};

/// Whether the branch at `i`, if there is one that is not far, goes to a label before it that it does not
/// reach.
fn is_too_far_back(
    items: &[AsmItem],
    targets: &[usize],
    far: &[bool],
    places: &[u64],
    i: usize,
) -> bool
    requires inside { i < length items.now }
    requires few { length items.now < 2 ^ 60 }
    requires targets { AreTargets items.now targets.now }
    requires swept { SweptBack items.now far.now places.now i }
    ensures yes { OnTrue result (TooFarBack items.now far.now i) }
    ensures no { OnFalse result (BackReachesAt items.now far.now i) }
{
    if far[i] || !is_branch(&items[i]) {
        return false;
    }
    let target = targets[i];
    target <= i && places[target] + BRANCH_REACH < places[i] + 1
}

/// Whether the branch at `i`, if there is one that is not far, goes to a label behind it that it does not
/// reach. `rests` has the words from each item on.
fn is_too_far_forth(
    items: &[AsmItem],
    targets: &[usize],
    far: &[bool],
    rests: &[u64],
    i: usize,
) -> bool
    requires inside { i < length items.now }
    requires few { length items.now < 2 ^ 60 }
    requires targets { AreTargets items.now targets.now }
    requires swept { SweptForth items.now far.now rests.now (i + 1) }
    ensures yes { OnTrue result (TooFarForth items.now far.now i) }
    ensures no { OnFalse result (ForthReachesAt items.now far.now i) }
{
    if far[i] || !is_branch(&items[i]) {
        return false;
    }
    let target = targets[i];
    i < target && rests[target] + BRANCH_REACH <= rests[i + 1]
}

/// Settles the item at `i` in a sweep from the front: it is far where it goes too far back, and the place
/// of the next item is known. Answers whether the sweep made a branch far so far.
#[tactic(auto, using(crate::proofs::Steps::back_same, crate::proofs::Steps::back_set, crate::proofs::Steps::back_forced, crate::proofs::Steps::back_grown))]
fn settle_back(
    items: &[AsmItem],
    targets: &[usize],
    far: &mut [bool],
    places: &mut [u64],
    i: usize,
    grew: bool,
) -> bool
    requires inside { i < length items.now }
    requires few { length items.now < 2 ^ 60 }
    requires targets { AreTargets items.now targets.now }
    requires swept { SweptBack items.now far.old places.old i }
    ensures swept { SweptBack items.now far.new places.new (i + 1) }
    ensures forced { IsForced items.now far.old → IsForced items.now far.new }
    ensures grown { (first : List Bool) → GrowsWhere first far.old grew → GrowsWhere first far.new result }
{
    if is_too_far_back(items, targets, far, places, i) {
        far[i] = true;
        places[i + 1] = places[i] + words_of_item(&items[i], true);
        return true;
    }
    places[i + 1] = places[i] + words_of_item(&items[i], far[i]);
    grew
}

/// Settles the item at `i` in a sweep from the end: it is far where it goes too far forth, and the words
/// from it on are known. Answers whether the sweep made a branch far so far.
#[tactic(auto, using(crate::proofs::Steps::forth_same, crate::proofs::Steps::forth_set, crate::proofs::Steps::forth_forced, crate::proofs::Steps::forth_grown))]
fn settle_forth(
    items: &[AsmItem],
    targets: &[usize],
    far: &mut [bool],
    rests: &mut [u64],
    i: usize,
    grew: bool,
) -> bool
    requires inside { i < length items.now }
    requires few { length items.now < 2 ^ 60 }
    requires targets { AreTargets items.now targets.now }
    requires swept { SweptForth items.now far.old rests.old (i + 1) }
    ensures swept { SweptForth items.now far.new rests.new i }
    ensures forced { IsForced items.now far.old → IsForced items.now far.new }
    ensures grown { (first : List Bool) → GrowsWhere first far.old grew → GrowsWhere first far.new result }
{
    if is_too_far_forth(items, targets, far, rests, i) {
        far[i] = true;
        rests[i] = rests[i + 1] + words_of_item(&items[i], true);
        return true;
    }
    rests[i] = rests[i + 1] + words_of_item(&items[i], far[i]);
    grew
}

/// A sweep from the front. Answers whether it made a branch far.
#[tactic(auto, using(crate::proofs::Steps::back_begins))]
fn sweep_back(items: &[AsmItem], targets: &[usize], far: &mut [bool], places: &mut [u64]) -> bool
    requires few { length items.now < 2 ^ 60 }
    requires targets { AreTargets items.now targets.now }
    requires far { length far.old ≡ length items.now }
    requires places { length places.old ≡ length items.now + 1 }
    ensures swept { SweptBack items.now far.new places.new (length items.now) }
    ensures forced { IsForced items.now far.old → IsForced items.now far.new }
    ensures grown { GrowsWhere far.old far.new result }
{
    places[0] = 0;
    let mut grew = false;
    for i in 0..items.len() {
        grew = settle_back(items, targets, far, places, i, grew);
    }
    grew
}

/// A sweep from the end. Answers whether it made a branch far.
#[tactic(auto, using(crate::proofs::Steps::forth_begins))]
fn sweep_forth(items: &[AsmItem], targets: &[usize], far: &mut [bool], rests: &mut [u64]) -> bool
    requires few { length items.now < 2 ^ 60 }
    requires targets { AreTargets items.now targets.now }
    requires far { length far.old ≡ length items.now }
    requires rests { length rests.old ≡ length items.now + 1 }
    ensures swept { SweptForth items.now far.new rests.new 0 }
    ensures forced { IsForced items.now far.old → IsForced items.now far.new }
    ensures grown { GrowsWhere far.old far.new result }
{
    rests[items.len()] = 0;
    let mut grew = false;
    for i in (0..items.len()).rev() {
        grew = settle_forth(items, targets, far, rests, i, grew);
    }
    grew
}

/// A sweep from the end and one from the front. Answers whether the second one made a branch far; where it
/// did not, every branch that is not far reaches.
#[tactic(auto, using(crate::proofs::Steps::places_of, crate::proofs::Steps::both_fewer, crate::proofs::Steps::both_reach))]
fn sweep(items: &[AsmItem], targets: &[usize], far: &mut [bool], places: &mut [u64]) -> bool
    requires few { length items.now < 2 ^ 60 }
    requires targets { AreTargets items.now targets.now }
    requires far { length far.old ≡ length items.now }
    requires places { length places.old ≡ length items.now + 1 }
    ensures far { length far.new ≡ length items.now }
    ensures places { ArePlaces items.now far.new places.new }
    ensures forced { IsForced items.now far.old → IsForced items.now far.new }
    ensures reach { OnFalse result (AllReach items.now far.new) }
    ensures fewer { OnTrue result (near far.new < near far.old) }
{
    let _grew = sweep_forth(items, targets, far, places);
    sweep_back(items, targets, far, places)
}

/// Which items of a text are far, and the place of each, and of the text's end, in words.
#[derive(Debug, Drop)]
pub(crate) struct Layout {
    pub(crate) far: Vec<bool>,
    pub(crate) places: Vec<u64>,
}

/// Makes those branches far that have to be, where each that is far already has to be.
fn settle(
    alloc: Global,
    items: &[AsmItem],
    targets: &[usize],
    far: &mut [bool],
    places: &mut [u64],
) -> Result<(), AllocError>
    requires few { length items.now < 2 ^ 60 }
    requires targets { AreTargets items.now targets.now }
    requires far { length far.old ≡ length items.now }
    requires places { length places.old ≡ length items.now + 1 }
    requires forced { IsForced items.now far.old }
    ensures far { length far.new ≡ length items.now }
    ensures places { length places.new ≡ length items.now + 1 }
    ensures least { OnOk result (IsLeastFar items.now far.new) }
    ensures are_places { OnOk result (ArePlaces items.now far.new places.new) }
{
    while sweep(items, targets, far, places) {
        spread(alloc, items, targets, far, places)?;
    }
    Ok(())
}

/// The least far branches of a text such that every other branch reaches.
#[tactic(auto, using(crate::proofs::Steps::none_forced))]
pub(crate) fn lay_out(
    alloc: Global,
    items: &[AsmItem],
    targets: &[usize],
) -> Result<Layout, AllocError>
    requires targets { AreTargets items.now targets.now }
    ensures least { IfOk result (λ l. IsLeastFar items.now l.far.items) }
    ensures places { IfOk result (λ l. ArePlaces items.now l.far.items l.places.items) }
{
    let mut far = Vec::new(alloc);
    far.resize(items.len(), false)?;
    let mut places = Vec::new(alloc);
    places.resize(items.len() + 1, 0)?;
    settle(
        alloc,
        items,
        targets,
        far.as_mut_slice(),
        places.as_mut_slice(),
    )?;
    Ok(Layout { far, places })
}
