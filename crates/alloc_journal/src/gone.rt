//! The temporaries that leave their registers, by rising number.

ghost use Rattle.std.specs.Prelude.{◌≡◌, ◌<◌, length};
ghost use Rattle.alloc_journal.specs.model.Holders.{holder_in, register_in};
ghost use Rattle.alloc_journal.specs.model.Leaving as model;

use crate::holders::{holder_at, is_in, register_of};
use binpack_blocks::bins::GIVEN;

/// A temporary, if it has no register. It may have this one.
#[tactic(auto, using(crate::proofs::Tables::held_there))]
fn unless_held(behind: &[Option<u32>], r: u8, temp: u32) -> Option<u32>
    requires many { length behind.now ≡ 26 }
    requires given { r < 26 }
    ensures { result ≡ model.unless_held (register_in behind.now temp) temp }
{
    if is_in(holder_at(behind, r), temp) {
        return None;
    }
    match register_of(behind, temp) {
        None => Some(temp),
        Some(_) => None,
    }
}

/// The temporary that a register has, if it has no register behind that.
fn gone_from(before: &[Option<u32>], behind: &[Option<u32>], r: u8) -> Option<u32>
    requires before { length before.now ≡ 26 }
    requires behind { length behind.now ≡ 26 }
    requires given { r < 26 }
    ensures { result ≡ model.gone (holder_in before.now r) behind.now }
{
    match holder_at(before, r) {
        None => None,
        Some(temp) => unless_held(behind, r, temp),
    }
}

/// The lower one of a temporary and another one, if there is another one.
fn lower(best: Option<u32>, temp: u32) -> Option<u32>
    ensures { result ≡ model.lower best temp }
{
    match best {
        None => Some(temp),
        Some(other) => {
            if temp < other {
                Some(temp)
            } else {
                Some(other)
            }
        }
    }
}

/// The lower one of those that are at least a number, of what was found so far and another one.
fn sooner(from: u32, best: Option<u32>, other: Option<u32>) -> Option<u32>
    ensures { result ≡ model.sooner from best other }
{
    match other {
        None => best,
        Some(temp) => { if temp < from { best } else { lower(best, temp) } }
    }
}

/// The lowest one of those that are at least a number, of what was found so far and what has no register any more.
#[tactic(auto, using(crate::proofs::Tables::soonest_begins, crate::proofs::Tables::soonest_next))]
fn soonest(
    from: u32,
    found: Option<u32>,
    before: &[Option<u32>],
    behind: &[Option<u32>],
) -> Option<u32>
    requires before { length before.now ≡ 26 }
    requires behind { length behind.now ≡ 26 }
    ensures { result ≡ model.soonest from found before.now behind.now 26 }
{
    let mut best = found;
    for r in 0..GIVEN {
        best = sooner(from, best, gone_from(before, behind, r));
    }
    best
}

/// The lowest temporary from a number on that leaves a register before the writes of an instruction or by them, if one
/// does.
pub(crate) fn next_gone(
    from: u32,
    before: &[Option<u32>],
    left: &[Option<u32>],
    behind: &[Option<u32>],
) -> Option<u32>
    requires before { length before.now ≡ 26 }
    requires left { length left.now ≡ 26 }
    requires behind { length behind.now ≡ 26 }
    ensures { result ≡ model.next_gone from before.now left.now behind.now }
{
    let first = soonest(from, None, before, left);
    soonest(from, first, left, behind)
}
