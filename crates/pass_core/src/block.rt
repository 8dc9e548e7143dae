//! Blocks of instructions.

ghost use Rattle.std.specs.Prelude.{◌≡◌, [], ◌∷◌, ◌++◌, OnOk, OnErr};

use bk_ilist::IndexList;
use std::alloc::{AllocError, Global};
use std::marker::Model;

/// The number of ids from which on a list gives no more.
pub const LAST_ID: u32 = u32::MAX - 1;

/// A block: instructions that are done one after the other. Contracts see their list.
#[derive(Drop)]
pub struct Block<I> {
    pub insns: IndexList<I>,
}

impl<I> Model for Block<I> {
    ghost use Rattle.std.specs.Prelude.{List};
    ghost use Rattle.std.specs.Coded.{coded_list};
    ghost use Rattle.bk_ilist.specs.Listing.{items};

    ghost Value = { List I };

    ghost coded = { coded_list I.code };

    ghost view = { λ b. items b.insns.pairs };
}

impl<I> Block<I> {
    /// The empty block. Takes no memory.
    pub fn new(alloc: Global) -> Block<I>
        ensures { result ≡ [] }
    {
        Block {
            insns: IndexList::new(alloc),
        }
    }
}

impl<I: Drop> Block<I> {
    /// Puts an instruction behind the others. Where memory is short, or the list has no more ids, the block stays as
    /// it was.
    pub fn push(&mut self, insn: I) -> Result<(), AllocError>
        ensures ok { OnOk result (self.new ≡ self.old ++ insn ∷ []) }
        ensures err { OnErr result (self.new ≡ self.old) }
    {
        if self.insns.made() >= LAST_ID - 1 {
            return Err(AllocError);
        }
        self.insns.reserve(1)?;
        let _id = self.insns.push_back(insn);
        Ok(())
    }
}
