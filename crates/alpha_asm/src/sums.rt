//! The words between two items of a text, while branches become far.
//!
//! The words stand in a tree: those of the item k in node n + k of 2n nodes, and in each node k below n those of
//! the nodes 2k and 2k + 1. So a change, and a sum over a range of items, take time in the logarithm of n. What
//! is known of a tree is that no node has more than that, which is what a branch becomes far by.

ghost use Rattle.std.specs.Prelude.{◌≡◌, ℕ, ◌+◌, ◌*◌, ◌<◌, ◌≤◌, ◌^◌, List, Bool, length, IfOk};
ghost use Rattle.alpha_items.specs.declared.item.AsmItem.{AsmItem};
ghost use Rattle.alpha_items.specs.Layout.{sizes, item_place};
ghost use Rattle.alpha_asm.specs.model.Sums.{front, HoldsAtMost};

use crate::sizes::words_of_item;
use alpha_items::item::AsmItem;
use std::alloc::{AllocError, Global};

/// A range of nodes, and words that were counted beside it.
#[derive(Clone, Copy, Debug)]
struct Range {
    left: usize,
    right: usize,
    words: u64,
}

/// The node above the left end of a range, behind what is counted of it here.
fn rise_left(sums: &[u32], left: usize, words: u64) -> (usize, u64)
    requires { left < length sums.now }
    ensures node { left ≤ 2 * result.0 }
    ensures near { 2 * result.0 ≤ left + 1 }
    ensures words { result.1 + front sums.now left ≤ words + front sums.now (2 * result.0) }
{
    if left % 2 == 0 {
        return (left / 2, words);
    }
    (left / 2 + 1, words.saturating_add(u64::from(sums[left])))
}

/// The node above the right end of a range, before what is counted of it here.
fn rise_right(sums: &[u32], right: usize, words: u64) -> (usize, u64)
    requires { right ≤ length sums.now }
    ensures node { 2 * result.0 ≤ right }
    ensures near { right ≤ 2 * result.0 + 1 }
    ensures words { result.1 + front sums.now (2 * result.0) ≤ words + front sums.now right }
{
    if right % 2 == 0 {
        return (right / 2, words);
    }
    (right / 2, words.saturating_add(u64::from(sums[right - 1])))
}

/// The range of the nodes above.
fn rise(sums: &[u32], range: Range) -> Range
    requires some { range.left < range.right }
    requires inside { range.right ≤ length sums.now }
    ensures order { result.left ≤ result.right }
    ensures less { result.right < range.right }
    ensures words { (leaves : List ℕ) (a b : ℕ) → HoldsAtMost leaves sums.now →
        range.words + front sums.now range.right + a ≤ b + front sums.now range.left →
        result.words + front sums.now result.right + a ≤ b + front sums.now result.left }
{
    let (left, words) = rise_left(sums, range.left, range.words);
    let (right, words) = rise_right(sums, range.right, words);
    Range { left, right, words }
}

/// No more than the words from one item of a text to before another one.
pub(crate) fn words_between(sums: &[u32], start: usize, end: usize) -> u64
    ensures { (items : List AsmItem) (far : List Bool) → HoldsAtMost (sizes items far) sums.now →
        length far ≡ length items → start ≤ end → end ≤ length items →
        result + item_place items far start ≤ item_place items far end }
{
    let count = sums.len() / 2;
    let end = end.min(count);
    let start = start.min(end);
    let mut range = Range {
        left: count + start,
        right: count + end,
        words: 0,
    };
    while range.left < range.right {
        range = rise(sums, range);
    }
    range.words
}

/// Counts the words of a node below which two others stand.
#[tactic(auto, using(crate::proofs::Trees::node_raised))]
fn sum_up(sums: &mut [u32], node: usize)
    requires { 2 * node + 1 < length sums.old }
    ensures { (leaves : List ℕ) → HoldsAtMost leaves sums.old → HoldsAtMost leaves sums.new }
{
    match sums[2 * node].checked_add(sums[2 * node + 1]) {
        Some(sum) => sums[node] = sum,
        None => {}
    }
}

/// Counts the words of an item in its own node.
#[tactic(auto, using(crate::proofs::Trees::leaf_raised))]
fn put_words(items: &[AsmItem], far: &[bool], sums: &mut [u32], i: usize)
    requires inside { i < length items.now }
    requires one_each { length far.now ≡ length items.now }
    requires sums { HoldsAtMost (sizes items.now far.now) sums.old }
    ensures { HoldsAtMost (sizes items.now far.now) sums.new }
{
    sums[items.len() + i] = words_of_item(&items[i], far[i]) as u32;
}

/// Counts the words of an item anew.
pub(crate) fn change_words(items: &[AsmItem], far: &[bool], sums: &mut [u32], i: usize)
    requires inside { i < length items.now }
    requires one_each { length far.now ≡ length items.now }
    requires sums { HoldsAtMost (sizes items.now far.now) sums.old }
    ensures { HoldsAtMost (sizes items.now far.now) sums.new }
{
    put_words(items, far, sums, i);
    let mut node = items.len() + i;
    while node > 1 {
        node /= 2;
        sum_up(sums, node);
    }
}

/// Counts the words of each item in its own node.
fn put_all_words(items: &[AsmItem], far: &[bool], sums: &mut [u32])
    requires one_each { length far.now ≡ length items.now }
    requires sums { HoldsAtMost (sizes items.now far.now) sums.old }
    ensures { HoldsAtMost (sizes items.now far.now) sums.new }
{
    for i in 0..items.len() {
        put_words(items, far, sums, i);
    }
}

/// Counts the words of all nodes below which others stand.
fn sum_all(sums: &mut [u32])
    ensures { (leaves : List ℕ) → HoldsAtMost leaves sums.old → HoldsAtMost leaves sums.new }
{
    for node in (1..sums.len() / 2).rev() {
        sum_up(sums, node);
    }
}

/// The words of the items of a text.
#[tactic(auto, using(crate::proofs::Trees::nothing_held))]
pub(crate) fn sums_of(
    alloc: Global,
    items: &[AsmItem],
    far: &[bool],
) -> Result<Vec<u32>, AllocError>
    requires few { length items.now < 2 ^ 60 }
    requires one_each { length far.now ≡ length items.now }
    ensures { IfOk result (λ sums. HoldsAtMost (sizes items.now far.now) sums.items) }
{
    let mut sums = Vec::new(alloc);
    sums.resize(2 * items.len(), 0)?;
    put_all_words(items, far, sums.as_mut_slice());
    sum_all(sums.as_mut_slice());
    Ok(sums)
}
