//! Where spans end, in a tree that finds the first one past a place.

use crate::spans::Span;
use std::alloc::{AllocError, Global};

/// The ends of spans. Node 1 of the tree is its root, below node k stand the nodes 2k and 2k + 1, and each node
/// has the greatest end below it. The leaves stand from `size` on, `levels` steps below the root.
#[derive(Debug, Drop)]
pub(crate) struct Ends {
    greatest: Vec<usize>,
    size: usize,
    levels: u32,
}

/// The number of levels that serve so many leaves.
pub(crate) fn levels_of(leaves: usize) -> u32 {
    leaves.checked_ilog2().unwrap_or(0) + 1
}

impl Ends {
    /// A tree of the ends of these spans.
    pub(crate) fn new(alloc: Global, spans: &[Span]) -> Result<Ends, AllocError> {
        let levels = levels_of(spans.len());
        let size = 1_usize.wrapping_shl(levels);
        let mut greatest = Vec::new(alloc);
        greatest.resize(size.saturating_mul(2), 0)?;
        let mut ends = Ends {
            greatest,
            size,
            levels,
        };
        for (at, span) in spans.iter().enumerate() {
            ends.put(size.wrapping_add(at), span.end());
        }
        for node in (1..size).rev() {
            let _has_changed = ends.gather(node);
        }
        Ok(ends)
    }

    /// The greatest end below a node.
    fn greatest(&self, node: usize) -> usize {
        self.greatest.get(node).copied().unwrap_or(0)
    }

    /// Sets the greatest end below a node.
    fn put(&mut self, node: usize, end: usize) {
        if let Some(place) = self.greatest.get_mut(node) {
            *place = end;
        }
    }

    /// Sets the greatest end below a node from those of the two nodes under it. Answers whether it has changed.
    fn gather(&mut self, node: usize) -> bool {
        let left = node.wrapping_mul(2);
        let greatest = self.greatest(left).max(self.greatest(left.wrapping_add(1)));
        let has_changed = greatest != self.greatest(node);
        self.put(node, greatest);
        has_changed
    }

    /// Takes an end out.
    pub(crate) fn remove(&mut self, at: usize) {
        let mut node = self.size.wrapping_add(at);
        self.put(node, 0);
        for _level in 0..self.levels {
            node /= 2;
            if !self.gather(node) {
                return;
            }
        }
    }

    /// The place of the first end below a node that is past another end, if there is one.
    fn first_below(&self, node: usize, end: usize) -> usize {
        let mut node = node;
        for _level in 0..self.levels {
            if node >= self.size {
                break;
            }
            node = node.wrapping_mul(2);
            if self.greatest(node) <= end {
                node = node.wrapping_add(1);
            }
        }
        node.wrapping_sub(self.size)
    }

    /// The place of the first end that is past another end.
    pub(crate) fn first_of_all_past(&self, end: usize) -> Option<usize> {
        if self.greatest(1) > end {
            return Some(self.first_below(1, end));
        }
        None
    }

    /// The place of the first end, from a place of the row on, that is past another end.
    pub(crate) fn first_past(&self, from: usize, end: usize) -> Option<usize> {
        let mut node = self.size.wrapping_add(from);
        for _step in 0..self.levels.saturating_mul(2) {
            if self.greatest(node) > end {
                return Some(self.first_below(node, end));
            }
            let next = node.wrapping_add(1);
            if next.is_power_of_two() {
                return None;
            }
            node = if node % 2 == 1 { next / 2 } else { next };
        }
        None
    }
}
