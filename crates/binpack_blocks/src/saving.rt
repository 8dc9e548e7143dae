//! What leaves a register is stored first, where its slot does not hold it.

ghost use Rattle.std.specs.Prelude.{◌≡◌, ◌≢◌, ◌+◌, ◌++◌, ◌<◌, ◌≤◌, [], ◌∷◌, ℕ, true, false, Some, length, slice_set, OnOk};
ghost use Rattle.alloc_model.specs.declared.allocation.Transfer.TheVariants as transfer;
ghost use Rattle.binpack_blocks.specs.declared.held.Held.{Held};
ghost use Rattle.binpack_blocks.specs.declared.held.SlotCopy.TheVariants as copy;
ghost use Rattle.binpack_blocks.specs.model.Bins.{held_in, has_temp, must_store};
ghost use Rattle.binpack_blocks.specs.model.Bins as model;
ghost use Rattle.binpack_blocks.specs.model.Steps.{Site, State, Steps, MayStore};
ghost use Rattle.binpack_blocks.specs.model.Scanning.{state_of};

use crate::bins::Scan;
use crate::held::{Held, SlotCopy};
use alloc_model::allocation::Transfer;
use std::alloc::AllocError;

/// Whether the slot does not hold a temporary.
fn is_unsaved(copy: SlotCopy) -> bool
    ensures { result ≡ model.is_unsaved copy }
{
    match copy {
        SlotCopy::Own => true,
        SlotCopy::Twice => false,
        SlotCopy::Lent(saved) => !saved,
    }
}

impl Scan {
    /// Stores what stands in a register.
    fn store(&mut self, r: u8, held: Held) -> Result<(), AllocError>
        requires { held_in self.old.bins.items r ≡ Some held }
        ensures bins { OnOk result (self.new.bins.items ≡ slice_set self.old.bins.items r (Some (model.held held.temp copy.Twice))) }
        ensures made { OnOk result (self.new.made.items ≡ self.old.made.items ++ transfer.Store held.temp r ∷ []) }
        ensures relied { OnOk result (self.new.relied ≡ self.old.relied) }
        ensures temps { OnOk result (self.new.temps ≡ self.old.temps) }
    {
        self.made.push(Transfer::Store {
            temp: held.temp,
            reg: r,
        })?;
        self.put(
            r,
            Held {
                temp: held.temp,
                copy: SlotCopy::Twice,
            },
        );
        Ok(())
    }

    /// Stores what stands in a register, where it is live and its slot does not hold it.
    #[tactic(auto, using(crate::proofs::Counts::one_behind))]
    pub(crate) fn save(&mut self, r: u8, live: bool) -> Result<(), AllocError>
        requires { r < 26 }
        ensures steps { OnOk result ((s : Site) (u : State)
            → ((h : Held) → held_in self.old.bins.items r ≡ Some h → live ≡ true → MayStore s h.temp)
            → Steps s u (state_of self.old) → Steps s u (state_of self.new)) }
        ensures saved { OnOk result (must_store live (held_in self.new.bins.items r) ≡ false) }
        ensures same { OnOk result ((q t : ℕ)
            → has_temp (held_in self.new.bins.items q) t ≡ has_temp (held_in self.old.bins.items q) t) }
        ensures others { OnOk result ((q : ℕ) → q ≢ r → held_in self.new.bins.items q ≡ held_in self.old.bins.items q) }
        ensures count { OnOk result (length self.new.made.items ≤ length self.old.made.items + 1) }
        ensures temps { OnOk result (self.new.temps ≡ self.old.temps) }
    {
        match self.holder(r) {
            None => Ok(()),
            Some(held) => {
                if live && is_unsaved(held.copy) {
                    self.store(r, held)?;
                    Ok(())
                } else {
                    Ok(())
                }
            }
        }
    }
}
