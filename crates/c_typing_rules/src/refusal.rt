//! Why a rule gives nothing.

ghost use Rattle.std.specs.Prelude.{◌≡◌};
ghost use Rattle.c_typing_rules.specs.declared.refusal.Refusal.TheVariants.{NoMemory};
ghost use Rattle.c_typing_rules.specs.Rulings as spec;

use c_typing_faults::{Fault, Kind};
use std::alloc::AllocError;

/// Why a rule gives nothing.
#[derive(Clone, Copy, Debug, PartialEq, Eq)]
pub enum Refusal {
    /// The operands have this fault.
    Refused(Fault),
    /// Memory is short.
    NoMemory,
}

impl From<AllocError> for Refusal {
    ghost from_gives = { λ _ refusal. refusal ≡ NoMemory };

    fn from(_fault: AllocError) -> Refusal {
        Refusal::NoMemory
    }
}

/// The refusal for a fault.
pub fn refuse(at: u32, kind: Kind) -> Refusal
    ensures { result ≡ spec.refusal at kind }
{
    Refusal::Refused(Fault { at, kind })
}
