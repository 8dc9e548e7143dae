//! A whole assembly.

ghost use Rattle.std.specs.Prelude.{◌≡◌};
ghost use Rattle.alpha_items.specs.Assembly.{Assembly, IsWhole};

use crate::item::{AsmItem, Fix};
use std::marker::Model;

/// The items of a program with its data and what holds addresses in it. It is whole: what its items name
/// is there, once each, and every number is in its range (`IsWhole` says it in full). Contracts see the
/// three lists.
#[derive(Debug, Drop)]
pub struct Asm {
    /// The text.
    pub items: Vec<AsmItem>,
    /// The data.
    pub bytes: Vec<u8>,
    /// The places of the data that hold addresses, by rising place.
    pub fixes: Vec<Fix>,
}

impl Model for Asm {
    ghost use Rattle.alpha_items.specs.Assembly.{Assembly, IsWhole};

    ghost Value = { Assembly };

    ghost view = { λ a. record { items = a.items.items; bytes = a.bytes.items; fixes = a.fixes.items } };

    ghost invariant = { λ a. IsWhole (record { items = a.items.items; bytes = a.bytes.items; fixes = a.fixes.items }) };
}

impl Asm {
    /// The assembly of these items, data and fixes, which are whole together. It takes no memory.
    pub fn new(items: Vec<AsmItem>, bytes: Vec<u8>, fixes: Vec<Fix>) -> Asm
        requires { IsWhole (record { items = items.items; bytes = bytes.items; fixes = fixes.items }) }
        ensures asm { result ≡ record { items = items.items; bytes = bytes.items; fixes = fixes.items } }
        ensures whole { IsWhole result }
    {
        Asm {
            items,
            bytes,
            fixes,
        }
    }
}
