//! Where the labels of a text are named.

ghost use Rattle.std.specs.Prelude.{◌≡◌, ℕ, List, Some, IfOk, map, nat_eq, unwrap_or};
ghost use Rattle.std.specs.List.{position_from};
ghost use Rattle.std.specs.HashMap.{get};
ghost use Rattle.alpha_items.specs.declared.item.AsmItem.{AsmItem};
ghost use Rattle.alpha_items.specs.Items as items;
ghost use Rattle.alpha_items.specs.Items.{names_label};
ghost use Rattle.alpha_asm.specs.model.Sweeps.{label_target, target_of};

use alpha_items::item::AsmItem;
use std::alloc::{AllocError, Global};
use std::collections::HashMap;

/// The items that the labels of a text stand for, by their numbers.
#[derive(Debug, Drop)]
pub(crate) struct Targets {
    /// For each item the one that names the label which it uses, and 0 where it uses none.
    pub(crate) of_items: Vec<usize>,
    /// The one that names label 0.
    pub(crate) entry: usize,
}

/// The number of the item that names each label, the first one of each.
fn label_table(alloc: Global, items: &[AsmItem]) -> Result<HashMap<u32, usize>, AllocError>
    ensures { IfOk result (λ table. (l : ℕ) → get nat_eq table l ≡ position_from (names_label l) 0 items.now) }
{
    let mut table = HashMap::new(alloc);
    for i in (0..items.len()).rev() {
        if let AsmItem::Label(label) = &items[i] {
            table.insert(*label, i)?;
        }
    }
    Ok(table)
}

/// The label that an item uses.
fn label_used(item: &AsmItem) -> Option<u32>
    ensures { result ≡ items.label_used item.now }
{
    match item {
        AsmItem::Branch { label, .. } => Some(*label),
        AsmItem::TextAddress { label, .. } => Some(*label),
        _ => None,
    }
}

/// The number of the item that names a label, and 0 where there is none.
fn named_at(table: &HashMap<u32, usize>, label: u32) -> usize
    ensures { result ≡ unwrap_or (get nat_eq table.now label) 0 }
{
    table.get(&label).copied().unwrap_or(0)
}

/// The number of the item that names the label which an item uses, and 0 where it uses none.
fn target(item: &AsmItem, table: &HashMap<u32, usize>) -> usize
    ensures { (items : List AsmItem) → ((l : ℕ) → get nat_eq table.now l ≡ position_from (names_label l) 0 items) →
        result ≡ target_of items item.now }
{
    match label_used(item) {
        Some(label) => named_at(table, label),
        None => 0,
    }
}

/// The items that the labels of a text stand for.
pub(crate) fn targets_of(alloc: Global, items: &[AsmItem]) -> Result<Targets, AllocError>
    ensures of_items { IfOk result (λ t. t.of_items.items ≡ map (target_of items.now) items.now) }
    ensures entry { IfOk result (λ t. t.entry ≡ label_target items.now (Some 0)) }
{
    let table = label_table(alloc, items)?;
    let mut of_items = Vec::with_capacity(alloc, items.len())?;
    for item in items {
        of_items.push(target(item, &table))?;
    }
    Ok(Targets {
        of_items,
        entry: named_at(&table, 0),
    })
}
