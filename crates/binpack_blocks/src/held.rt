//! What a register has while a function is scanned.

/// Whether the slot of a temporary that has its place in a register holds it too.
#[derive(Clone, Copy, Debug, PartialEq, Eq)]
pub enum SlotCopy {
    /// It does not.
    Own,
    /// It does.
    Twice,
    /// The temporary stands in a register since the block's top, and neither was it stored nor written there. The slot
    /// holds it where the block needs that; the mark says whether it did at the end of the linear predecessor.
    Lent(bool),
}

/// A temporary that has its place in a register.
#[derive(Clone, Copy, Debug, PartialEq, Eq)]
pub struct Held {
    /// Its number.
    pub temp: u32,
    /// How its slot stands to it.
    pub copy: SlotCopy,
}
