//! Links: an id or none, in four bytes.

ghost use Rattle.std.specs.Prelude.{◌≡◌, ◌-◌, ◌^◌, ◌<◌, IfSome};

use std::marker::Model;

/// The number that stands for no id. It is never given as one.
const NO_ID: u32 = u32::MAX;

/// The id of a neighbour, or none.
#[derive(Debug, Drop)]
pub(crate) struct Link {
    number: u32,
}

impl Model for Link {
    ghost use Rattle.std.specs.Prelude.{ℕ, ◌==◌, ◌-◌, ◌^◌, Option, Some, None, if◌then◌else◌};
    ghost use Rattle.std.specs.Coded.{coded_option, coded_ℕ};

    ghost Value = { Option ℕ };

    ghost coded = { coded_option coded_ℕ };

    ghost view = { λ l. if l.number == 2 ^ 32 - 1 then None else Some l.number };
}

impl Link {
    /// The link that names an id, or none.
    #[inline(always)]
    pub(crate) fn to(id: Option<u32>) -> Link
        requires { IfSome id (λ k. k < 2 ^ 32 - 1) }
        ensures { result ≡ id }
    {
        match id {
            Some(number) => Link { number },
            None => Link { number: NO_ID },
        }
    }

    /// The id, if there is one.
    #[inline(always)]
    pub(crate) fn id(&self) -> Option<u32>
        ensures value { result ≡ self.now }
        ensures below { IfSome result (λ k. k < 2 ^ 32 - 1) }
    {
        if self.number == NO_ID {
            None
        } else {
            Some(self.number)
        }
    }
}
