//! Ranges and points that are put behind the parts and references so far.

ghost use Rattle.std.specs.Prelude.{◌≡◌, ◌<◌, ◌==◌, ◌++◌, ◌∷◌, [], length, OnOk, IfSome};
ghost use Rattle.lifetime_holes.specs.model.Spans.{Joins, JoinsSome, Puts, Changes};
ghost use Rattle.lifetime_holes.specs.model.Walks.{is_named};

use alloc_rules::scan::LifetimePart;
use bk_containers::Seq;
use std::alloc::{AllocError, Global};
use std::mem::replace;

/// Puts a range behind the last part, or joins it to that one where that reaches it.
fn put_behind(
    items: &mut Vec<LifetimePart>,
    part: LifetimePart,
    first: u32,
    last: u32,
) -> Result<(), AllocError>
    ensures { OnOk result (Joins first last (items.old.items ++ part ∷ []) items.new.items) }
{
    if u64::from(first) <= u64::from(part.last) + 1 {
        items.push(LifetimePart {
            first: part.first,
            last,
        })?;
    } else {
        items.push(part)?;
        items.push(LifetimePart { first, last })?;
    }
    Ok(())
}

/// Puts a range behind the parts of a temporary.
fn put_range(items: &mut Vec<LifetimePart>, first: u32, last: u32) -> Result<(), AllocError>
    ensures { OnOk result (Joins first last items.old.items items.new.items) }
{
    match items.pop() {
        None => {
            items.push(LifetimePart { first, last })?;
            Ok(())
        }
        Some(part) => put_behind(items, part, first, last),
    }
}

/// Puts a point behind the references of a temporary, unless it is the last of them.
fn put_point(items: &mut Vec<u32>, point: u32) -> Result<(), AllocError>
    ensures { OnOk result (Puts point items.old.items items.new.items) }
{
    match items.pop() {
        None => {
            items.push(point)?;
            Ok(())
        }
        Some(last) => {
            items.push(last)?;
            if last != point {
                items.push(point)?;
            }
            Ok(())
        }
    }
}

/// Puts a range behind those of one temporary of a table.
pub(crate) fn mark(
    alloc: Global,
    table: &mut [Seq<LifetimePart>],
    temp: u32,
    first: u32,
    last: u32,
) -> Result<(), AllocError>
    requires { temp < length table.now }
    ensures { OnOk result (Changes (λ t. temp == t) (JoinsSome first last) table.old table.new) }
{
    let place = temp as usize;
    let mut items = Seq::into_vec(replace(&mut table[place], Seq::new(alloc)));
    put_range(&mut items, first, last)?;
    table[place] = Seq::from_vec(items);
    Ok(())
}

/// Puts a range behind those of a temporary, if there is one.
pub(crate) fn mark_named(
    alloc: Global,
    table: &mut [Seq<LifetimePart>],
    temp: Option<u32>,
    first: u32,
    last: u32,
) -> Result<(), AllocError>
    requires { IfSome temp (λ t. t < length table.now) }
    ensures { OnOk result (Changes (is_named temp) (JoinsSome first last) table.old table.new) }
{
    match temp {
        None => Ok(()),
        Some(found) => mark(alloc, table, found, first, last),
    }
}

/// Puts a point behind those of one temporary of a table.
fn note(alloc: Global, table: &mut [Seq<u32>], temp: u32, point: u32) -> Result<(), AllocError>
    requires { temp < length table.now }
    ensures { OnOk result (Changes (λ t. temp == t) (Puts point) table.old table.new) }
{
    let place = temp as usize;
    let mut items = Seq::into_vec(replace(&mut table[place], Seq::new(alloc)));
    put_point(&mut items, point)?;
    table[place] = Seq::from_vec(items);
    Ok(())
}

/// Puts a point behind those of a temporary, if there is one.
pub(crate) fn note_named(
    alloc: Global,
    table: &mut [Seq<u32>],
    temp: Option<u32>,
    point: u32,
) -> Result<(), AllocError>
    requires { IfSome temp (λ t. t < length table.now) }
    ensures { OnOk result (Changes (is_named temp) (Puts point) table.old table.new) }
{
    match temp {
        None => Ok(()),
        Some(found) => note(alloc, table, found, point),
    }
}
