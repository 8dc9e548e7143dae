//! Which points lifetimes cover.

ghost use Rattle.std.specs.Prelude.{◌≡◌};
ghost use Rattle.alloc_rules.specs.Scan.{lifetime_parts};
ghost use Rattle.alloc_journal.specs.Covered as covered;
ghost use Rattle.alloc_journal.specs.Covered.{lifetime_covers};

use alloc_rules::scan::{LifetimePart, Lifetimes};

/// The parts of a temporary.
fn parts_of(lives: &Lifetimes, temp: u32) -> &[LifetimePart]
    ensures { result.now ≡ lifetime_parts lives.now temp }
{
    match lives.parts.as_slice().get(temp as usize) {
        None => &[],
        Some(parts) => parts.as_slice(),
    }
}

/// Whether a point lies between the begin of a part and the end of another one.
fn lies_between(first: Option<LifetimePart>, last: Option<LifetimePart>, point: u32) -> bool
    ensures { result ≡ covered.lies_between first last point }
{
    match first {
        None => false,
        Some(begin) => match last {
            None => false,
            Some(end) => begin.first <= point && point <= end.last,
        },
    }
}

/// Whether one of some parts lies at a point or before it, and one at it or behind it.
fn parts_cover(parts: &[LifetimePart], point: u32) -> bool
    ensures { result ≡ covered.parts_cover parts.now point }
{
    lies_between(parts.first().copied(), parts.last().copied(), point)
}

/// Whether the lifetime of a temporary covers a point.
pub(crate) fn covers(lives: &Lifetimes, temp: u32, point: u32) -> bool
    ensures { result ≡ lifetime_covers lives.now temp point }
{
    parts_cover(parts_of(lives, temp), point)
}
