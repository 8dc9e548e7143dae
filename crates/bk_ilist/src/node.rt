//! Nodes of a chain, and the writes to one link or item.

ghost use Rattle.std.specs.Prelude.{◌≡◌, ℕ, ◌-◌, ◌<◌, ◌^◌, length, slice_get, Option, Some, IfSome, IsSome};
ghost use Rattle.bk_ilist.specs.model.Chain.{with_item, with_next, with_prev, Changes, end_behind, item_of, next_of};

use crate::link::Link;
use std::mem;

/// An item with its neighbours, or what is left of a node that was unlinked.
#[derive(Debug, Drop)]
pub(crate) struct Node<T> {
    pub(crate) item: Option<T>,
    pub(crate) next: Link,
    pub(crate) prev: Link,
}

/// Makes `to` the next of the node `at`, or the first where there is no such node.
pub(crate) fn link_forward<T>(
    nodes: &mut [Node<T>],
    first: &mut Link,
    at: Option<u32>,
    to: Option<u32>,
)
    requires node { IfSome at (λ id. id < length nodes.old) }
    requires link { IfSome to (λ id. id < 2 ^ 32 - 1) }
    ensures nodes { Changes (with_next to) at nodes.old nodes.new }
    ensures first { first.new ≡ end_behind at to first.old }
{
    match at {
        Some(id) => nodes[id as usize].next = Link::to(to),
        None => *first = Link::to(to),
    }
}

/// Makes `to` the one before the node `at`, or the last where there is no such node.
pub(crate) fn link_back<T>(nodes: &mut [Node<T>], last: &mut Link, at: Option<u32>, to: Option<u32>)
    requires node { IfSome at (λ id. id < length nodes.old) }
    requires link { IfSome to (λ id. id < 2 ^ 32 - 1) }
    ensures nodes { Changes (with_prev to) at nodes.old nodes.new }
    ensures last { last.new ≡ end_behind at to last.old }
{
    match at {
        Some(id) => nodes[id as usize].prev = Link::to(to),
        None => *last = Link::to(to),
    }
}

/// Puts another item, or none, into a node that has one, and hands the old one out.
pub(crate) fn swap_item<T>(nodes: &mut [Node<T>], id: u32, item: Option<T>) -> T
    requires within { id < length nodes.old }
    requires item { IsSome (item_of (slice_get nodes.old id)) }
    ensures nodes { Changes (with_item item) (Some id) nodes.old nodes.new }
    ensures value { item_of (slice_get nodes.old id) ≡ Some result }
{
    let node = &mut nodes[id as usize];
    match mem::replace(&mut node.item, item) {
        Some(old) => old,
        None => unreachable!(),
    }
}

/// The item of a node that has one.
pub(crate) fn node_item<T>(nodes: &[Node<T>], id: u32) -> &T
    requires within { id < length nodes.now }
    requires item { IsSome (item_of (slice_get nodes.now id)) }
    ensures { item_of (slice_get nodes.now id) ≡ Some result.now }
{
    match &nodes[id as usize].item {
        Some(item) => item,
        None => unreachable!(),
    }
}

/// The id that a node names as the next.
pub(crate) fn node_next<T>(nodes: &[Node<T>], id: u32) -> Option<u32>
    requires { id < length nodes.now }
    ensures { result ≡ next_of (slice_get nodes.now id) }
{
    nodes[id as usize].next.id()
}
