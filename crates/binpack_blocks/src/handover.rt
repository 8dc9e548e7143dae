//! What a block hands over to the next one in linear order.

ghost use Rattle.std.specs.Prelude.{◌≡◌, ◌≢◌, ◌++◌, ◌<◌, ℕ, length, slice_set, replicate, false, IfOk, OnOk};
ghost use Rattle.binpack_blocks.specs.model.Bins.{held_in};
ghost use Rattle.binpack_blocks.specs.model.Bins as model;
ghost use Rattle.binpack_blocks.specs.model.Tops.{entry, places_from};
ghost use Rattle.binpack_blocks.specs.model.Tops as tops;

use crate::bins::{GIVEN, Scan};
use crate::held::{Held, SlotCopy};
use alloc_model::allocation::{Loc, TempPlace};
use bk_bits::BitSet;
use bk_containers::Seq;
use std::alloc::{AllocError, Global};

/// How a temporary is left in its slot for the next block.
fn lent_copy(copy: SlotCopy) -> SlotCopy
    ensures { result ≡ model.lent_copy copy }
{
    match copy {
        SlotCopy::Own => SlotCopy::Lent(false),
        SlotCopy::Twice => SlotCopy::Lent(true),
        SlotCopy::Lent(saved) => SlotCopy::Lent(saved),
    }
}

/// Whether a temporary is listed: where all are, or where it is a member of a set.
fn is_listed(all: bool, set: &BitSet, temp: u32) -> bool
    requires { temp < length set.now }
    ensures { result ≡ tops.is_listed all set.now temp }
{
    all || set.test(temp)
}

impl Scan {
    /// Puts what stands in a register with it, if it is listed.
    fn put_place(
        &self,
        out: &mut Seq<TempPlace>,
        r: u8,
        all: bool,
        set: &BitSet,
    ) -> Result<(), AllocError>
        requires given { r < 26 }
        requires bound { length set.now ≡ self.now.temps }
        ensures { OnOk result (out.new ≡ out.old ++ entry (tops.is_listed all set.now) r (held_in self.now.bins.items r)) }
    {
        match self.holder(r) {
            None => Ok(()),
            Some(held) => {
                if is_listed(all, set, held.temp) {
                    out.push(TempPlace {
                        temp: held.temp,
                        place: Loc::Reg(r),
                    })
                } else {
                    Ok(())
                }
            }
        }
    }

    /// What stands in registers and is listed, with its register.
    pub(crate) fn places(
        &self,
        alloc: Global,
        all: bool,
        set: &BitSet,
    ) -> Result<Seq<TempPlace>, AllocError>
        requires { length set.now ≡ self.now.temps }
        ensures { IfOk result (λ places. places ≡ places_from (tops.is_listed all set.now) 0 self.now.bins.items) }
    {
        let mut out = Seq::new(alloc);
        for r in 0..GIVEN {
            self.put_place(&mut out, r, all, set)?;
        }
        Ok(out)
    }

    /// What stands in a register is lent to the next block.
    fn lend_one(&mut self, r: u8)
        requires { r < 26 }
        ensures lent { held_in self.new.bins.items r ≡ model.lent (held_in self.old.bins.items r) }
        ensures others { (q : ℕ) → q ≢ r → held_in self.new.bins.items q ≡ held_in self.old.bins.items q }
        ensures relied { self.new.relied ≡ self.old.relied }
        ensures temps { self.new.temps ≡ self.old.temps }
    {
        match self.holder(r) {
            None => {}
            Some(held) => self.put(
                r,
                Held {
                    temp: held.temp,
                    copy: lent_copy(held.copy),
                },
            ),
        }
    }

    /// What stands in registers is lent to the next block.
    fn lend(&mut self)
        ensures lent { (r : ℕ) → r < 26 → held_in self.new.bins.items r ≡ model.lent (held_in self.old.bins.items r) }
        ensures temps { self.new.temps ≡ self.old.temps }
    {
        for r in 0..GIVEN {
            self.lend_one(r);
        }
    }

    /// Begins a block: what stands in registers is lent to it, and it has relied on no slot.
    pub(crate) fn begin(&mut self, alloc: Global) -> Result<(), AllocError>
        ensures lent { OnOk result ((r : ℕ) → r < 26
            → held_in self.new.bins.items r ≡ model.lent (held_in self.old.bins.items r)) }
        ensures relied { OnOk result (self.new.relied ≡ replicate self.old.temps false) }
        ensures temps { OnOk result (self.new.temps ≡ self.old.temps) }
    {
        self.lend();
        self.relied = BitSet::new(alloc, self.temps)?;
        Ok(())
    }
}
