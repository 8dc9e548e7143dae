//! A function whose instructions are chosen, as items.

use crate::item::AsmItem;
use crate::name::FunctionName;

/// A function as items.
#[derive(Debug, Drop)]
pub struct FinalFn {
    /// Its name.
    pub name: FunctionName,
    /// Its text.
    pub items: Vec<AsmItem>,
    /// The bytes of its frame below the stack pointer at its entry, a multiple of 16.
    pub frame: u64,
    /// How many labels its items name besides that of its entry.
    pub labels: u32,
}
