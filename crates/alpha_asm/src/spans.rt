//! The spans of a text: from each branch that reaches to its label. A branch is far once its span has too many
//! words.

use crate::sizes::is_branch;
use alpha_isa::limits::BRANCH_REACH;
use alpha_items::item::AsmItem;
use std::alloc::{AllocError, Global};

/// A far branch has at most so many times the words of a near one.
const MOST_GROWTH: u64 = 4;

/// The items that a branch passes over, by the place of the branch and of its label.
#[derive(Clone, Copy, Debug)]
pub(crate) struct Span {
    pub(crate) branch: usize,
    target: usize,
}

impl Span {
    /// Whether the label stands behind the branch.
    pub(crate) fn is_ahead(&self) -> bool {
        self.branch < self.target
    }

    /// The first item.
    pub(crate) fn start(&self) -> usize {
        if self.is_ahead() {
            self.branch.saturating_add(1)
        } else {
            self.target
        }
    }

    /// The item behind the last one.
    pub(crate) fn end(&self) -> usize {
        if self.is_ahead() {
            self.target
        } else {
            self.branch
        }
    }

    /// The words of its items in a text with these places.
    pub(crate) fn words(&self, places: &[u64]) -> u64 {
        let start = places.get(self.start()).copied().unwrap_or(0);
        let end = places.get(self.end()).copied().unwrap_or(0);
        end.saturating_sub(start)
    }
}

/// Spans by rising starts, and for each item of the text how many of them start at it or before.
#[derive(Debug, Drop)]
pub(crate) struct Spans {
    pub(crate) spans: Vec<Span>,
    pub(crate) begun: Vec<usize>,
}

/// The spans of the branches that are not far, and that may become far where branches within their spans do.
fn spans_by_branches(
    alloc: Global,
    items: &[AsmItem],
    targets: &[usize],
    far: &[bool],
    places: &[u64],
) -> Result<Vec<Span>, AllocError> {
    let mut spans = Vec::new(alloc);
    for (branch, (item, (is_far, target))) in items
        .iter()
        .zip(far.iter().zip(targets))
        .enumerate()
    {
        let span = Span {
            branch,
            target: *target,
        };
        if is_branch(item)
            && !*is_far
            && span.words(places).saturating_mul(MOST_GROWTH) >= BRANCH_REACH
        {
            spans.push(span)?;
        }
    }
    Ok(spans)
}

/// How many spans start at each item or before it.
fn begun_at(alloc: Global, items: usize, spans: &[Span]) -> Result<Vec<usize>, AllocError> {
    let mut begun = Vec::new(alloc);
    begun.resize(items, 0_usize)?;
    for span in spans {
        if let Some(count) = begun.get_mut(span.start()) {
            *count = count.wrapping_add(1);
        }
    }
    let mut all = 0_usize;
    for count in &mut begun {
        all = all.wrapping_add(*count);
        *count = all;
    }
    Ok(begun)
}

/// The spans of a text that may become too long. Of those that start at the same item the one of the branch before
/// it stands first.
pub(crate) fn spans_of(
    alloc: Global,
    items: &[AsmItem],
    targets: &[usize],
    far: &[bool],
    places: &[u64],
) -> Result<Spans, AllocError> {
    let mut spans = spans_by_branches(alloc, items, targets, far, places)?;
    let begun = begun_at(alloc, items.len(), spans.as_slice())?;
    spans.sort_by_key(|span: &Span| span.start())?;
    Ok(Spans { spans, begun })
}
