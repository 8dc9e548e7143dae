//! The slack of each span: how many words more it has room for. It stands in a tree that knows the span with the
//! least slack.

use crate::ends::levels_of;
use std::alloc::{AllocError, Global};

/// The slack of a span that is not looked at: more than all growth of a text takes.
pub(crate) const NEVER: i64 = 1 << 62;

/// Two neighbours in the tree: what the slacks below each have in common beyond what stands in the nodes above, and
/// the leaf with the least slack below each. So the lesser of the first two is 0.
#[derive(Clone, Copy, Debug)]
struct Pair {
    common: [i64; 2],
    least: [usize; 2],
}

/// What the slacks below a node have become: the least of them has so much more, and stands at a leaf.
#[derive(Clone, Copy, Debug)]
struct Change {
    more: i64,
    least: usize,
}

/// A node on the way up, with what the slacks below it have become.
#[derive(Clone, Copy, Debug)]
struct Edge {
    node: usize,
    change: Change,
}

/// The slacks of spans. Node 1 of the tree is its root, and below node k stand the nodes 2k and 2k + 1, which are the
/// pair k. A slack is the sum of the nodes from its leaf up to the root. The leaves stand from `size` on, `levels`
/// steps below the root, with one more at each end.
#[derive(Debug, Drop)]
pub(crate) struct Slacks {
    pairs: Vec<Pair>,
    root: Change,
    size: usize,
    levels: u32,
}

impl Pair {
    /// Changes one side, and takes words from the slacks of the other one. Answers what has become of the slacks of
    /// both.
    fn settle(&mut self, side: usize, change: Change, words: i64) -> Change {
        let one = side % 2;
        let other = 1 - one;
        let slack = self.common[one].wrapping_add(change.more);
        let slack_beside = self.common[other].wrapping_sub(words);
        let more = slack.min(slack_beside);
        self.common[one] = slack.wrapping_sub(more);
        self.common[other] = slack_beside.wrapping_sub(more);
        self.least[one] = change.least;
        let least = if slack <= slack_beside {
            change.least
        } else {
            self.least[other]
        };
        Change { more, least }
    }

    /// What has become of the slacks of both where they had nothing in common before.
    fn gather(&mut self) -> Change {
        let change = Change {
            more: 0,
            least: self.least[0],
        };
        self.settle(0, change, 0)
    }
}

impl Slacks {
    /// A tree of these slacks.
    pub(crate) fn new(alloc: Global, slacks: &[i64]) -> Result<Slacks, AllocError> {
        let levels = levels_of(slacks.len().saturating_add(2));
        let size = 1_usize.wrapping_shl(levels);
        let nothing = Pair {
            common: [0, 0],
            least: [0, 0],
        };
        let mut pairs = Vec::new(alloc);
        pairs.resize(size, nothing)?;
        let root = Change { more: 0, least: 0 };
        let mut tree = Slacks {
            pairs,
            root,
            size,
            levels,
        };
        tree.put_all(slacks);
        tree.gather_all();
        Ok(tree)
    }

    /// Puts slacks below a node where there is nothing yet.
    fn put(&mut self, node: usize, slacks: Change) {
        if let Some(pair) = self.pairs.get_mut(node / 2) {
            pair.common[node % 2] = slacks.more;
            pair.least[node % 2] = slacks.least;
        }
    }

    /// Puts each slack into its leaf.
    fn put_all(&mut self, slacks: &[i64]) {
        for least in 0..self.size {
            let more = slacks.get(least.wrapping_sub(1)).copied().unwrap_or(NEVER);
            self.put(self.size.wrapping_add(least), Change { more, least });
        }
    }

    /// Puts what slacks have in common into the nodes above.
    fn gather_all(&mut self) {
        for node in (1..self.size).rev() {
            let Some(pair) = self.pairs.get_mut(node) else {
                return;
            };
            self.root = pair.gather();
            self.put(node, self.root);
        }
    }

    /// The slack of a span.
    fn slack(&self, at: usize) -> i64 {
        let mut node = self.size.wrapping_add(at).wrapping_add(1);
        let mut slack = self.root.more;
        for _level in 0..self.levels {
            if let Some(pair) = self.pairs.get(node / 2) {
                slack = slack.wrapping_add(pair.common[node % 2]);
            }
            node /= 2;
        }
        slack
    }

    /// A leaf whose slack has so much more.
    fn edge(&self, leaf: usize, more: i64) -> Edge {
        Edge {
            node: self.size.wrapping_add(leaf),
            change: Change { more, least: leaf },
        }
    }

    /// Changes a node, and takes words from the slacks below its neighbour. Answers the node above.
    fn climb(&mut self, edge: Edge, words: i64) -> Edge {
        let node = edge.node / 2;
        let change = match self.pairs.get_mut(node) {
            Some(pair) => pair.settle(edge.node, edge.change, words),
            None => edge.change,
        };
        Edge { node, change }
    }

    /// Whether the slacks below a node have become no other.
    fn is_same(&self, edge: Edge) -> bool {
        match self.pairs.get(edge.node / 2) {
            Some(pair) => edge.change.more == 0 && edge.change.least == pair.least[edge.node % 2],
            None => true,
        }
    }

    /// Changes a node and all above it.
    fn rise(&mut self, edge: Edge) {
        let mut edge = edge;
        for _level in 0..self.levels {
            if edge.node <= 1 {
                break;
            }
            if self.is_same(edge) {
                return;
            }
            edge = self.climb(edge, 0);
        }
        self.root = Change {
            more: self.root.more.wrapping_add(edge.change.more),
            least: edge.change.least,
        };
    }

    /// Changes two neighbours and all above them.
    fn join(&mut self, left: Edge, right: Edge) {
        if let Some(pair) = self.pairs.get_mut(right.node / 2) {
            pair.common[1] = pair.common[1].wrapping_add(right.change.more);
            pair.least[1] = right.change.least;
        }
        let above = self.climb(left, 0);
        self.rise(above);
    }

    /// Changes two leaves, and takes words from the slacks between them: at each level from those nodes between the
    /// two on the way up whose neighbours are not.
    fn take(&mut self, left: Edge, right: Edge, words: i64) {
        let mut left = left;
        let mut right = right;
        for _level in 0..self.levels {
            if left.node / 2 == right.node / 2 {
                break;
            }
            let beside_left = if left.node % 2 == 0 { words } else { 0 };
            let beside_right = if right.node % 2 == 1 { words } else { 0 };
            left = self.climb(left, beside_left);
            right = self.climb(right, beside_right);
        }
        self.join(left, right);
    }

    /// Looks at a span from now on, which has so much slack.
    pub(crate) fn look_at(&mut self, at: usize, slack: i64) {
        let more = slack.wrapping_sub(self.slack(at));
        self.rise(self.edge(at.wrapping_add(1), more));
    }

    /// Looks no more at a span, and takes words from the slacks of those before it, from one on.
    pub(crate) fn leave_behind(&mut self, first: usize, at: usize, words: u64) {
        let leaving = self.edge(at.wrapping_add(1), NEVER);
        if first >= at {
            self.rise(leaving);
            return;
        }
        self.take(self.edge(first, 0), leaving, words.cast_signed());
    }

    /// Looks no more at a span, and takes words from the slacks of those behind it, to before another one.
    pub(crate) fn leave_before(&mut self, at: usize, past: usize, words: u64) {
        let leaving = self.edge(at.wrapping_add(1), NEVER);
        if at.saturating_add(1) >= past {
            self.rise(leaving);
            return;
        }
        self.take(
            leaving,
            self.edge(past.wrapping_add(1), 0),
            words.cast_signed(),
        );
    }

    /// The span with the least slack, and that slack, where it is less than none.
    pub(crate) fn overfull(&self) -> Option<(usize, i64)> {
        if self.root.more >= 0 {
            return None;
        }
        Some((self.root.least.wrapping_sub(1), self.root.more))
    }
}
