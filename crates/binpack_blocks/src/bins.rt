//! The registers while a function is scanned.

ghost use Rattle.std.specs.Prelude.{◌≡◌, ◌+◌, ◌++◌, ◌<◌, ◌≢◌, None, ◌&&◌, [], ◌∷◌, ℕ, true, false, Some, length, slice_set, if◌then◌else◌, IfSome, IfNone, OnOk};
ghost use Rattle.alloc_rules.specs.Scan.{lifetime_parts};
ghost use Rattle.binpack_blocks.specs.model.Bins.{held_in, has_temp, IsNowhere, IsOnce, AreInside, relied_behind};
ghost use Rattle.binpack_blocks.specs.model.Bins as model;
ghost use Rattle.binpack_blocks.specs.model.Rows as rows;
ghost use Rattle.binpack_blocks.specs.model.Wanted.{LifetimesRise};

use crate::fixed_uses::FixedUses;
use crate::held::{Held, SlotCopy};
use crate::wanted::is_wanted;
use alloc_model::allocation::Transfer;
use alloc_rules::scan::Lifetimes;
use bk_bits::BitSet;

/// The number of registers that temporaries can be given: 0 to 25.
pub const GIVEN: u8 = 26;

/// The state of a scan within a block: what stands in the registers, the transfers before the instruction at hand, the
/// temporaries on whose slots the block has relied, and the fixed uses that come next.
#[derive(Drop)]
pub struct Scan {
    /// The number of temporaries.
    pub temps: u32,
    /// What stands in each register.
    pub bins: Vec<Option<Held>>,
    /// The transfers before the instruction at hand.
    pub made: Vec<Transfer>,
    /// The temporaries on whose slots the block has relied.
    pub relied: BitSet,
    /// The fixed uses of the registers, of which those up to the instruction at hand are passed.
    pub fixed: FixedUses,
    pub ghost many: { length bins.items ≡ 26 },
    pub ghost bound: { length relied ≡ temps },
    pub ghost inside: { AreInside temps bins.items },
    pub ghost once: { IsOnce bins.items },
}

/// Whether the slot holds a temporary where the blocks before see to that.
fn is_relied(copy: SlotCopy) -> bool
    ensures { result ≡ model.is_relied copy }
{
    match copy {
        SlotCopy::Own => false,
        SlotCopy::Twice => false,
        SlotCopy::Lent(saved) => saved,
    }
}

/// Whether a temporary stands there.
fn has(holder: Option<Held>, temp: u32) -> bool
    ensures { result ≡ has_temp holder temp }
{
    match holder {
        None => false,
        Some(held) => held.temp == temp,
    }
}

impl Scan {
    /// What a register has.
    pub(crate) fn holder(&self, r: u8) -> Option<Held>
        requires { r < 26 }
        ensures { result ≡ held_in self.now.bins.items r }
    {
        self.bins[r as usize]
    }

    /// The register in which a temporary stands.
    pub(crate) fn register_of(&self, temp: u32) -> Option<u8>
        ensures within { IfSome result (λ r. r < 26) }
        ensures there { IfSome result (λ r. has_temp (held_in self.now.bins.items r) temp ≡ true) }
        ensures none { IfNone result (IsNowhere self.now.bins.items temp) }
    {
        for r in 0..GIVEN {
            if has(self.holder(r), temp) {
                return Some(r);
            }
        }
        None
    }

    /// Whether something that is wanted at a point stands in a register.
    pub(crate) fn lives_in(&self, r: u8, lives: &Lifetimes, point: u32) -> bool
        requires given { r < 26 }
        requires parts { length lives.now.parts ≡ self.now.temps }
        requires rise { LifetimesRise lives.now }
        ensures { result ≡ model.lives (rows.is_wanted lives.now point) (held_in self.now.bins.items r) }
    {
        match self.holder(r) {
            None => false,
            Some(held) => is_wanted(lives, held.temp, point),
        }
    }

    /// Puts a temporary into a register. It stands in no other one.
    pub(crate) fn put(&mut self, r: u8, held: Held)
        requires given { r < 26 }
        requires low { held.temp < self.old.temps }
        requires alone { (q : ℕ) → has_temp (held_in self.old.bins.items q) held.temp ≡ true → q ≡ r }
        ensures bins { self.new.bins.items ≡ slice_set self.old.bins.items r (Some held) }
        ensures made { self.new.made ≡ self.old.made }
        ensures relied { self.new.relied ≡ self.old.relied }
        ensures temps { self.new.temps ≡ self.old.temps }
    {
        self.bins[r as usize] = Some(held);
    }

    /// Empties a register.
    pub(crate) fn clear(&mut self, r: u8)
        requires given { r < 26 }
        ensures bins { self.new.bins.items ≡ slice_set self.old.bins.items r None }
        ensures made { self.new.made ≡ self.old.made }
        ensures relied { self.new.relied ≡ self.old.relied }
        ensures temps { self.new.temps ≡ self.old.temps }
    {
        self.bins[r as usize] = None;
    }

    /// Notes that the block relies on a slot, if it does.
    fn rely_on(&mut self, needed: bool, temp: u32)
        requires { temp < self.old.temps }
        ensures bins { self.new.bins ≡ self.old.bins }
        ensures made { self.new.made ≡ self.old.made }
        ensures relied { self.new.relied ≡ (if needed then slice_set self.old.relied temp true else self.old.relied) }
        ensures temps { self.new.temps ≡ self.old.temps }
    {
        if needed {
            self.relied.insert(temp);
        }
    }

    /// Notes that the block relies on the slot of what leaves a register, where it is live and its slot was handed over.
    pub(crate) fn rely(&mut self, r: u8, live: bool)
        requires given { r < 26 }
        ensures bins { self.new.bins ≡ self.old.bins }
        ensures made { self.new.made ≡ self.old.made }
        ensures relied { self.new.relied ≡ relied_behind live (held_in self.old.bins.items r) self.old.relied }
        ensures temps { self.new.temps ≡ self.old.temps }
    {
        match self.holder(r) {
            None => {}
            Some(held) => self.rely_on(live && is_relied(held.copy), held.temp),
        }
    }
}
