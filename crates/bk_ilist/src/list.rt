//! The list.

ghost use Rattle.std.specs.Prelude.{◌≡◌, ℕ, ◌+◌, ◌-◌, ◌<◌, ◌≤◌, ◌^◌, [], ◌∷◌, ◌++◌, length, max, vec_capacity, IsOk, OnOk, OnErr};
ghost use Rattle.bk_ilist.specs.Listing.{first_id, last_id, HasId, AtId, IsListing};
ghost use Rattle.bk_ilist.specs.model.Chain.{HasGap, AtGap};

use crate::iter::Iter;
use crate::link::Link;
use crate::node::{Node, link_back, link_forward, node_item, swap_item};
use std::alloc::{AllocError, Global};
use std::marker::Model;

/// Makes room for `k` more nodes. Where there is none yet, it takes room for no more than these, since many lists never
/// grow; a list that grows takes room ahead.
fn take_room<T>(nodes: &mut Vec<Node<T>>, k: usize) -> Result<(), AllocError>
    ensures items { nodes.new.items ≡ nodes.old.items }
    ensures ok { OnOk result (length nodes.new.items + k ≤ vec_capacity nodes.new) }
    ensures capacity { vec_capacity nodes.old ≤ vec_capacity nodes.new }
    ensures succeeds { length nodes.old.items + k ≤ vec_capacity nodes.old → IsOk result }
{
    if nodes.is_empty() {
        nodes.reserve_exact(k)
    } else {
        nodes.reserve(k)
    }
}

/// A list whose items have ids.
#[derive(Debug, Drop)]
pub struct IndexList<T> {
    /// The nodes by id. Those without an item were unlinked.
    nodes: Vec<Node<T>>,
    /// The id of the first item.
    first: Link,
    /// The id of the last item.
    last: Link,
    /// For how many more nodes there is room. It counts no more of it than ids are left for.
    spare: u32,
}

impl<T> Model for IndexList<T> {
    ghost use Rattle.std.specs.Prelude.{◌+◌, ◌≤◌, ◌<◌, ◌^◌, length, vec_capacity};
    ghost use Rattle.bk_ilist.specs.Listing.{Listing, listing_code};

    ghost Value = { Listing T };

    ghost coded = { listing_code T.code };

    ghost use Rattle.bk_ilist.specs.model.Chain.{pairs_from, IsChain};

    ghost view = { λ l. record { pairs = pairs_from l.nodes.items l.first; spare = l.spare; made = length l.nodes.items } };

    ghost invariant = { λ l. IsChain l.nodes.items l.first l.last (pairs_from l.nodes.items l.first)
        × (length l.nodes.items + l.spare ≤ vec_capacity l.nodes)
        × (length l.nodes.items + l.spare < 2 ^ 32) };
}

impl<T> IndexList<T> {
    /// The empty list. Takes no memory.
    pub fn new(alloc: Global) -> IndexList<T>
        ensures { result ≡ record { pairs = []; spare = 0; made = 0 } }
    {
        IndexList {
            nodes: Vec::new(alloc),
            first: Link::to(None),
            last: Link::to(None),
            spare: 0,
        }
    }

    /// Makes room for `k` more items, so that as many insertions take no memory. Where memory is short the list stays
    /// as it was.
    pub fn reserve(&mut self, k: u32) -> Result<(), AllocError>
        requires { self.old.made + k < 2 ^ 32 - 1 }
        ensures ok { OnOk result (self.new ≡ record self.old { spare = max self.old.spare k }) }
        ensures err { OnErr result (self.new ≡ self.old) }
        ensures had_room { k ≤ self.old.spare → IsOk result }
    {
        if self.spare >= k {
            return Ok(());
        }
        take_room(&mut self.nodes, k as usize)?;
        self.spare = k;
        Ok(())
    }

    /// How many more items fit without memory.
    pub fn spare(&self) -> u32
        ensures { result ≡ self.now.spare }
    {
        self.spare
    }

    /// How many ids were given so far.
    pub fn made(&self) -> u32
        ensures value { result ≡ self.now.made }
        ensures lawful { IsListing self.now }
    {
        self.nodes.len() as u32
    }

    /// The id of the first item.
    pub fn first(&self) -> Option<u32>
        ensures { result ≡ first_id self.now.pairs }
    {
        self.first.id()
    }

    /// The id of the last item.
    pub fn last(&self) -> Option<u32>
        ensures { result ≡ last_id self.now.pairs }
    {
        self.last.id()
    }

    /// The id of the item behind this one.
    pub fn next(&self, id: u32) -> Option<u32>
        requires { HasId self.now.pairs id }
        ensures { AtId self.now.pairs id (λ before item after. result ≡ first_id after) }
    {
        self.nodes[id as usize].next.id()
    }

    /// The id of the item before this one.
    pub fn prev(&self, id: u32) -> Option<u32>
        requires { HasId self.now.pairs id }
        ensures { AtId self.now.pairs id (λ before item after. result ≡ last_id before) }
    {
        self.nodes[id as usize].prev.id()
    }

    /// The item of an id.
    pub fn get(&self, id: u32) -> &T
        requires { HasId self.now.pairs id }
        ensures { AtId self.now.pairs id (λ before item after. result.now ≡ item) }
    {
        node_item(&self.nodes, id)
    }

    /// The items in order, each with its id.
    pub fn iter(&self) -> Iter<'_, T>
        ensures { result ≡ self.now.pairs }
    {
        Iter {
            nodes: self.nodes.as_slice(),
            at: self.first.id(),
        }
    }

    /// Puts another item in the place of the one of this id, which is handed out.
    pub fn set(&mut self, id: u32, item: T) -> T
        requires { HasId self.old.pairs id }
        ensures value { AtId self.old.pairs id (λ before old after. result ≡ old) }
        ensures pairs { AtId self.old.pairs id (λ before old after. self.new.pairs ≡ before ++ (id, item) ∷ after) }
        ensures spare { self.new.spare ≡ self.old.spare }
        ensures made { self.new.made ≡ self.old.made }
    {
        swap_item(&mut self.nodes, id, Some(item))
    }

    /// Puts an item behind all others, and answers its id.
    pub fn push_back(&mut self, item: T) -> u32
        requires { 1 ≤ self.old.spare }
        ensures id { result ≡ self.old.made }
        ensures pairs { self.new.pairs ≡ self.old.pairs ++ (result, item) ∷ [] }
        ensures spare { self.old.spare ≡ self.new.spare + 1 }
        ensures made { self.new.made ≡ self.old.made + 1 }
    {
        let prev = self.last.id();
        self.insert_between(prev, None, item)
    }

    /// Puts an item before the one of this id, and answers its own.
    pub fn insert_before(&mut self, id: u32, item: T) -> u32
        requires room { 1 ≤ self.old.spare }
        requires place { HasId self.old.pairs id }
        ensures id { result ≡ self.old.made }
        ensures pairs { AtId self.old.pairs id (λ before other after.
            self.new.pairs ≡ before ++ (result, item) ∷ (id, other) ∷ after) }
        ensures spare { self.old.spare ≡ self.new.spare + 1 }
        ensures made { self.new.made ≡ self.old.made + 1 }
    {
        let prev = self.nodes[id as usize].prev.id();
        self.insert_between(prev, Some(id), item)
    }

    /// Puts an item behind the one of this id, and answers its own.
    pub fn insert_after(&mut self, id: u32, item: T) -> u32
        requires room { 1 ≤ self.old.spare }
        requires place { HasId self.old.pairs id }
        ensures id { result ≡ self.old.made }
        ensures pairs { AtId self.old.pairs id (λ before other after.
            self.new.pairs ≡ before ++ (id, other) ∷ (result, item) ∷ after) }
        ensures spare { self.old.spare ≡ self.new.spare + 1 }
        ensures made { self.new.made ≡ self.old.made + 1 }
    {
        let next = self.nodes[id as usize].next.id();
        self.insert_between(Some(id), next, item)
    }

    /// Takes the item of this id out of the list. The id is not given again.
    pub fn unlink(&mut self, id: u32) -> T
        requires { HasId self.old.pairs id }
        ensures value { AtId self.old.pairs id (λ before item after. result ≡ item) }
        ensures pairs { AtId self.old.pairs id (λ before item after. self.new.pairs ≡ before ++ after) }
        ensures spare { self.new.spare ≡ self.old.spare }
        ensures made { self.new.made ≡ self.old.made }
    {
        let prev = self.nodes[id as usize].prev.id();
        let next = self.nodes[id as usize].next.id();
        let item = swap_item(&mut self.nodes, id, None);
        link_forward(&mut self.nodes, &mut self.first, prev, next);
        link_back(&mut self.nodes, &mut self.last, next, prev);
        item
    }

    /// Puts an item between two that stand side by side, or between an end and the item there.
    fn insert_between(&mut self, prev: Option<u32>, next: Option<u32>, item: T) -> u32
        requires room { 1 ≤ self.old.spare }
        requires place { HasGap self.old.pairs prev next }
        ensures id { result ≡ self.old.made }
        ensures pairs { AtGap self.old.pairs prev next (λ before after.
            self.new.pairs ≡ before ++ (result, item) ∷ after) }
        ensures spare { self.old.spare ≡ self.new.spare + 1 }
        ensures made { self.new.made ≡ self.old.made + 1 }
    {
        let id = self.nodes.len() as u32;
        self.nodes.push_reserved(Node {
            item: Some(item),
            next: Link::to(next),
            prev: Link::to(prev),
        });
        link_forward(&mut self.nodes, &mut self.first, prev, Some(id));
        link_back(&mut self.nodes, &mut self.last, next, Some(id));
        self.spare -= 1;
        id
    }
}
