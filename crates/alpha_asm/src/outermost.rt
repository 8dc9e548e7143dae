//! The outermost spans: by rising starts, each that ends past all before it. A span that lies within another one
//! has no more words, so these alone are looked at.

use crate::ends::Ends;
use crate::slack::{NEVER, Slacks};
use crate::spans::{Span, Spans};
use crate::sums::words_between;
use alpha_isa::limits::BRANCH_REACH;
use std::alloc::{AllocError, Global};

/// The outermost spans before and behind one of them, in a ring. Where there is none stands the number of all spans,
/// which has links of its own.
#[derive(Clone, Copy, Debug)]
struct Links {
    before: usize,
    behind: usize,
}

/// The spans of a text that are not far yet, of which the outermost have their slacks. Their starts rise, and their
/// ends too.
#[derive(Debug, Drop)]
pub(crate) struct Outermost {
    spans: Vec<Span>,
    begun: Vec<usize>,
    ends: Ends,
    slacks: Slacks,
    links: Vec<Links>,
}

/// Makes two spans neighbours.
fn link(links: &mut [Links], before: usize, behind: usize) {
    if let Some(links) = links.get_mut(before) {
        links.behind = behind;
    }
    if let Some(links) = links.get_mut(behind) {
        links.before = before;
    }
}

/// The slack of each span where it is one of the outermost, by the places of the items. The outermost are linked.
fn slacks_of(
    alloc: Global,
    spans: &[Span],
    places: &[u64],
    links: &mut [Links],
) -> Result<Vec<i64>, AllocError> {
    let mut slacks = Vec::with_capacity(alloc, spans.len())?;
    let mut before = spans.len();
    let mut greatest = 0;
    for (at, span) in spans.iter().enumerate() {
        let mut slack = NEVER;
        if span.end() > greatest {
            slack = (BRANCH_REACH - 1)
                .wrapping_sub(span.words(places))
                .cast_signed();
            link(links, before, at);
            before = at;
            greatest = span.end();
        }
        slacks.push(slack)?;
    }
    link(links, before, spans.len());
    Ok(slacks)
}

impl Outermost {
    /// The outermost of these spans, in a text with these places.
    pub(crate) fn new(
        alloc: Global,
        spans: Spans,
        places: &[u64],
    ) -> Result<Outermost, AllocError> {
        let Spans { spans, begun } = spans;
        let none = spans.len();
        let alone = Links {
            before: none,
            behind: none,
        };
        let mut links = Vec::new(alloc);
        links.resize(none.saturating_add(1), alone)?;
        let slacks = slacks_of(alloc, spans.as_slice(), places, links.as_mut_slice())?;
        let slacks = Slacks::new(alloc, slacks.as_slice())?;
        let ends = Ends::new(alloc, spans.as_slice())?;
        Ok(Outermost {
            spans,
            begun,
            ends,
            slacks,
            links,
        })
    }

    /// The branch of the span with the least slack, where that is less than none.
    pub(crate) fn overfull(&self) -> Option<usize> {
        let (at, _slack) = self.slacks.overfull()?;
        let span = self.spans.get(at)?;
        Some(span.branch)
    }

    /// Where a span ends, and 0 where there is none.
    fn end(&self, at: usize) -> usize {
        match self.spans.get(at) {
            Some(span) => span.end(),
            None => 0,
        }
    }

    /// Looks no more at a span, and takes words from the slacks of those that pass over its branch. Where that
    /// goes ahead, they stand before it, and else behind it.
    fn leave(&mut self, at: usize, span: Span, words: u64) {
        if span.is_ahead() {
            let first = self.ends.first_of_all_past(span.branch).unwrap_or(at);
            self.slacks.leave_behind(first, at, words);
            return;
        }
        let past = self.begun.get(span.branch).copied().unwrap_or(0);
        self.slacks.leave_before(at, past, words);
    }

    /// Looks at a span that lies within another one, which has so much slack. Answers where it ends.
    fn look_at(&mut self, at: usize, outer: Span, slack: i64, sums: &[u32]) -> Option<usize> {
        let span = self.spans.get(at).copied()?;
        let before = words_between(sums, outer.start(), span.start());
        let behind = words_between(sums, span.end(), outer.end());
        let more = before.wrapping_add(behind).cast_signed();
        self.slacks.look_at(at, slack.wrapping_add(more));
        Some(span.end())
    }

    /// Looks at those that are outermost without a span that had so much slack, which stood between two others.
    fn show(&mut self, at: usize, outer: Span, around: Links, slack: i64, sums: &[u32]) {
        let mut before = around.before;
        let mut greatest = self.end(before);
        let mut from = at.saturating_add(1);
        for _span in 0..self.spans.len() {
            if greatest >= outer.end() || from >= around.behind {
                break;
            }
            let next = self
                .ends
                .first_past(from, greatest)
                .unwrap_or(around.behind);
            if next >= around.behind {
                break;
            }
            let Some(end) = self.look_at(next, outer, slack, sums) else {
                break;
            };
            link(self.links.as_mut_slice(), before, next);
            before = next;
            greatest = end;
            from = next.saturating_add(1);
        }
        link(self.links.as_mut_slice(), before, around.behind);
    }

    /// Takes the span with the least slack out, whose branch is far now and has so many words more.
    pub(crate) fn remove(&mut self, words: u64, sums: &[u32]) {
        let Some((at, slack)) = self.slacks.overfull() else {
            return;
        };
        let Some(span) = self.spans.get(at).copied() else {
            return;
        };
        let Some(around) = self.links.get(at).copied() else {
            return;
        };
        self.leave(at, span, words);
        self.ends.remove(at);
        self.show(at, span, around, slack, sums);
    }
}
