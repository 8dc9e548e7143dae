//! A table of pointers of which few are in use.
//!
//! Its slots stand in blocks of eight. A block takes room for its pointers when the first is put there, behind those
//! that are in use before it. The room for all blocks is reserved at the making, so that no pointer that is put
//! takes memory; what is not in use is never touched.

ghost use Rattle.std.specs.Prelude.{◌≡◌, ◌<◌, ◌≤◌, ◌+◌, ◌*◌, ◌^◌, length, [], replicate, slice_index, slice_set, vec_capacity, IfOk};
ghost use Rattle.mem_model.specs.model.Table.{no_pointer, pointer_at, table_of, free_blocks, IsTable};

use crate::value::Ptr;
use std::alloc::{AllocError, Global};
use std::marker::Model;

/// How many slots a block has.
const SLOTS: usize = 8;

/// What a slot holds before a pointer is put there.
const NO_POINTER: Ptr = Ptr {
    object: 0,
    offset: 0,
};

/// A table of pointers, which contracts see as the list of its slots.
#[derive(Debug, Drop)]
pub(crate) struct Table {
    /// The place of each block among those in use, from 1, and 0 where it is not in use.
    ranks: Vec<usize>,
    /// The pointers of the blocks in use.
    pointers: Vec<Ptr>,
}

impl Model for Table {
    ghost use Rattle.std.specs.Prelude.{List, ◌≤◌, ◌+◌, ◌*◌, length, vec_capacity};
    ghost use Rattle.mem_model.specs.declared.value.Ptr.{Ptr};

    ghost Value = { List Ptr };

    ghost use Rattle.mem_model.specs.model.Table.{table_of, free_blocks, IsTable};

    ghost view = { λ t. table_of t.ranks.items t.pointers.items };

    ghost invariant = { λ t. IsTable t.ranks.items t.pointers.items
        × (length t.pointers.items + 8 * free_blocks t.ranks.items ≤ vec_capacity t.pointers) };
}

/// Puts a block into use, where it is not yet.
fn use_block(ranks: &mut [usize], pointers: &mut Vec<Ptr>, block: usize)
    requires within { block < length ranks.old }
    requires table { IsTable ranks.old pointers.old.items }
    requires room { length pointers.old.items + 8 * free_blocks ranks.old ≤ vec_capacity pointers.old }
    ensures in_use { 0 < slice_index ranks.new block }
    ensures same { table_of ranks.new pointers.new.items ≡ table_of ranks.old pointers.old.items }
    ensures table { IsTable ranks.new pointers.new.items }
    ensures room { length pointers.new.items + 8 * free_blocks ranks.new ≤ vec_capacity pointers.new }
{
    if ranks[block] > 0 {
        return;
    }
    for made in 0..SLOTS {
        pointers.push_reserved(NO_POINTER);
    }
    ranks[block] = pointers.len() / SLOTS;
}

/// Puts a pointer into a slot.
fn put_slot(ranks: &mut [usize], pointers: &mut Vec<Ptr>, slot: usize, pointer: Ptr)
    requires within { slot < 8 * length ranks.old }
    requires table { IsTable ranks.old pointers.old.items }
    requires room { length pointers.old.items + 8 * free_blocks ranks.old ≤ vec_capacity pointers.old }
    ensures value { table_of ranks.new pointers.new.items
        ≡ slice_set (table_of ranks.old pointers.old.items) slot pointer }
    ensures table { IsTable ranks.new pointers.new.items }
    ensures room { length pointers.new.items + 8 * free_blocks ranks.new ≤ vec_capacity pointers.new }
{
    let block = slot / SLOTS;
    use_block(ranks, pointers, block);
    let start = SLOTS * (ranks[block] - 1);
    pointers[start + slot % SLOTS] = pointer;
}

/// The pointer in a slot.
fn slot_pointer(ranks: &[usize], pointers: &[Ptr], slot: usize) -> Ptr
    requires { IsTable ranks.now pointers.now }
    ensures { result ≡ pointer_at (table_of ranks.now pointers.now) slot }
{
    let block = slot / SLOTS;
    if block >= ranks.len() {
        return NO_POINTER;
    }
    let rank = ranks[block];
    if rank == 0 {
        return NO_POINTER;
    }
    pointers[SLOTS * (rank - 1) + slot % SLOTS]
}

impl Table {
    /// A table of so many blocks, none in use.
    pub(crate) fn new(alloc: Global, blocks: usize) -> Result<Table, AllocError>
        requires { 8 * blocks < 2 ^ 64 }
        ensures { IfOk result (λ table. table ≡ replicate (8 * blocks) no_pointer) }
    {
        let mut ranks = Vec::new(alloc);
        ranks.resize(blocks, 0)?;
        let pointers = Vec::with_capacity(alloc, SLOTS * blocks)?;
        Ok(Table { ranks, pointers })
    }

    /// A table without slots. Takes no memory.
    pub(crate) fn none(alloc: Global) -> Table
        ensures { result ≡ [] }
    {
        Table {
            ranks: Vec::new(alloc),
            pointers: Vec::new(alloc),
        }
    }

    /// The pointer in a slot.
    pub(crate) fn get(&self, slot: usize) -> Ptr
        ensures { result ≡ pointer_at self.now slot }
    {
        slot_pointer(&self.ranks, &self.pointers, slot)
    }

    /// Puts a pointer into a slot. Takes no memory.
    pub(crate) fn put(&mut self, slot: usize, pointer: Ptr)
        requires { slot < length self.old }
        ensures { self.new ≡ slice_set self.old slot pointer }
    {
        put_slot(&mut self.ranks, &mut self.pointers, slot, pointer);
    }
}
