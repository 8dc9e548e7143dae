//! Sequences of calls of a list with ids.

ghost use Rattle.std.specs.Prelude.{◌≡◌, ◌≤◌, OnOk};
ghost use Rattle.std.specs.Bool.{OnTrue};
ghost use Rattle.bk_ilist.specs.Listing.{HasId};

use anyhow::{Context, Result, bail};
use bk_ilist::IndexList;
use row_sheets::number::number;
use std::alloc::Global;

/// Whether an id is in the list.
fn is_in(list: &IndexList<u32>, id: u32) -> bool
    ensures { OnTrue result (HasId list.now.pairs id) }
{
    for (other, _item) in list.iter() {
        if other == id {
            return true;
        }
    }
    false
}

/// Makes room for one item.
fn make_room(list: &mut IndexList<u32>) -> Result<()>
    ensures room { OnOk result (1 ≤ list.new.spare) }
    ensures pairs { OnOk result (list.new.pairs ≡ list.old.pairs) }
{
    if list.made() > 1_000_000 {
        bail!("too many items");
    }
    list.reserve(1)?;
    Ok(())
}

fn put_before(list: &mut IndexList<u32>, id: u32, item: u32) -> Result<u32> {
    make_room(list)?;
    if !is_in(list, id) {
        bail!("{id} is not in the list");
    }
    Ok(list.insert_before(id, item))
}

fn put_after(list: &mut IndexList<u32>, id: u32, item: u32) -> Result<u32> {
    make_room(list)?;
    if !is_in(list, id) {
        bail!("{id} is not in the list");
    }
    Ok(list.insert_after(id, item))
}

fn put_back(list: &mut IndexList<u32>, item: u32) -> Result<u32> {
    make_room(list)?;
    Ok(list.push_back(item))
}

fn take(list: &mut IndexList<u32>, id: u32) -> Result<u32> {
    if !is_in(list, id) {
        bail!("{id} is not in the list");
    }
    Ok(list.unlink(id))
}

fn change(list: &mut IndexList<u32>, id: u32, item: u32) -> Result<u32> {
    if !is_in(list, id) {
        bail!("{id} is not in the list");
    }
    Ok(list.set(id, item))
}

fn read(list: &IndexList<u32>, id: u32) -> Result<u32> {
    if !is_in(list, id) {
        bail!("{id} is not in the list");
    }
    Ok(*list.get(id))
}

fn small(text: &str) -> Result<u32> {
    Ok(u32::try_from(number(text)?)?)
}

/// Does a call, and answers its number: the id of a new item, or the item that was there.
fn call(list: &mut IndexList<u32>, text: &str) -> Result<u32> {
    let (name, rest) = text.split_once(' ').context("a call has an argument")?;
    if name == "push" {
        return put_back(list, small(rest)?);
    }
    if name == "unlink" {
        return take(list, small(rest)?);
    }
    if name == "get" {
        return read(list, small(rest)?);
    }
    let (id, item) = rest
        .split_once(' ')
        .context("a call has an id and an item")?;
    let id = small(id)?;
    let item = small(item)?;
    match name {
        "before" => put_before(list, id, item),
        "after" => put_after(list, id, item),
        "set" => change(list, id, item),
        _ => bail!("no call is {name}"),
    }
}

/// The id that stands on a side of another one.
fn beside(list: &IndexList<u32>, id: u32, is_forward: bool) -> Result<Option<u32>> {
    if !is_in(list, id) {
        bail!("{id} is not in the list");
    }
    Ok(if is_forward {
        list.next(id)
    } else {
        list.prev(id)
    })
}

/// The pairs by the links of one side.
fn pairs_by_links(alloc: Global, list: &IndexList<u32>, is_forward: bool) -> Result<String> {
    let mut pairs = String::new(alloc);
    let mut at = if is_forward {
        list.first()
    } else {
        list.last()
    };
    for _turn in 0..=list.made() {
        let Some(id) = at else {
            break;
        };
        pairs.push_str(format!(in alloc; " {id}:{}", read(list, id)?)?.as_str())?;
        at = beside(list, id, is_forward)?;
    }
    Ok(pairs)
}

/// The pairs in the order of the walk.
fn pairs_by_walk(alloc: Global, list: &IndexList<u32>) -> Result<String> {
    let mut pairs = String::new(alloc);
    for (id, item) in list.iter() {
        pairs.push_str(format!(in alloc; " {id}:{item}")?.as_str())?;
    }
    Ok(pairs)
}

/// The answers of the calls, and then the list by `next`, by `prev` and by the walk, and how many ids were given.
pub fn answer(alloc: Global, given: &str) -> Result<Vec<u8>> {
    let mut list = IndexList::new(alloc);
    let mut text = String::new(alloc);
    for word in given.split(',') {
        let answer = call(&mut list, word.trim())?;
        text.push_str(format!(in alloc; "{answer} ")?.as_str())?;
    }
    let forward = pairs_by_links(alloc, &list, true)?;
    let back = pairs_by_links(alloc, &list, false)?;
    let walk = pairs_by_walk(alloc, &list)?;
    text.push_str(format!(in alloc; "/{forward} /{back} /{walk} / {}\n", list.made())?.as_str())?;
    Ok(text.into_bytes())
}
