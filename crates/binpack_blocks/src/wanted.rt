//! Where temporaries are wanted, by their lifetimes.

ghost use Rattle.std.specs.Prelude.{◌≡◌, ◌<◌, length, nat_lt, find};
ghost use Rattle.alloc_rules.specs.Scan.{lifetime_parts};
ghost use Rattle.binpack_blocks.specs.model.Rows as rows;
ghost use Rattle.binpack_blocks.specs.model.Spans as spans;
ghost use Rattle.binpack_blocks.specs.model.Wanted.{PartsRise, LifetimesRise, PointsRise, ReferencesRise};

use alloc_rules::scan::{LifetimePart, Lifetimes};

/// Whether one of some parts in order has a point.
fn is_covered_by(parts: &[LifetimePart], point: u32) -> bool
    requires { PartsRise parts.now }
    ensures { result ≡ rows.is_covered_by parts.now point }
{
    let first_left = parts.partition_point(|part| part.last < point);
    match parts.get(first_left) {
        None => false,
        Some(part) => part.first <= point,
    }
}

/// The parts of a temporary.
fn parts_of(lives: &Lifetimes, temp: u32) -> &[LifetimePart]
    requires { temp < length lives.now.parts }
    ensures { result.now ≡ lifetime_parts lives.now temp }
{
    lives.parts.as_slice()[temp as usize].as_slice()
}

/// Whether a temporary is present at a point.
pub(crate) fn is_wanted(lives: &Lifetimes, temp: u32, point: u32) -> bool
    requires there { temp < length lives.now.parts }
    requires rise { PartsRise (lifetime_parts lives.now temp) }
    ensures { result ≡ rows.is_wanted lives.now point temp }
{
    is_covered_by(parts_of(lives, temp), point)
}

/// The last point of the first of some parts in order that ends at a point or behind it, and that point where none does.
fn last_from(parts: &[LifetimePart], point: u32) -> u32
    requires { PartsRise parts.now }
    ensures { result ≡ spans.last_from parts.now point }
{
    let first_left = parts.partition_point(|part| part.last < point);
    match parts.get(first_left) {
        None => point,
        Some(part) => part.last,
    }
}

/// The first point of the first of some parts in order that begins behind a point, if one does.
fn first_behind(parts: &[LifetimePart], point: u32) -> Option<u32>
    requires { PartsRise parts.now }
    ensures { result ≡ spans.first_behind parts.now point }
{
    let first_left = parts.partition_point(|part| part.first <= point);
    match parts.get(first_left) {
        None => None,
        Some(part) => Some(part.first),
    }
}

/// The last point of the part of a temporary that is present at a point.
pub(crate) fn part_end(lives: &Lifetimes, temp: u32, point: u32) -> u32
    requires there { temp < length lives.now.parts }
    requires rise { LifetimesRise lives.now }
    ensures { result ≡ spans.part_end lives.now point temp }
{
    last_from(parts_of(lives, temp), point)
}

/// The first point behind another one at which a temporary that is absent there is present again, if there is one.
pub(crate) fn next_presence(lives: &Lifetimes, temp: u32, point: u32) -> Option<u32>
    requires there { temp < length lives.now.parts }
    requires rise { LifetimesRise lives.now }
    ensures { result ≡ spans.next_presence lives.now point temp }
{
    first_behind(parts_of(lives, temp), point)
}

/// The first of some points in order that is behind another one, if one is.
fn first_above(points: &[u32], point: u32) -> Option<u32>
    ensures { PointsRise points.now → result ≡ find (λ p. nat_lt point p) points.now }
{
    let first_left = points.partition_point(|other| *other <= point);
    match points.get(first_left) {
        None => None,
        Some(found) => Some(*found),
    }
}

/// The first point behind another one at which a temporary is read or written, if there is one.
pub(crate) fn next_reference(lives: &Lifetimes, temp: u32, point: u32) -> Option<u32>
    ensures { ReferencesRise lives.now → result ≡ spans.next_reference lives.now point temp }
{
    match lives.refs.as_slice().get(temp as usize) {
        None => None,
        Some(refs) => first_above(refs.as_slice(), point),
    }
}
