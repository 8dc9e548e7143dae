//! FrameItems that are made from the last one to the first.

ghost use Rattle.std.specs.Prelude.{◌≡◌, ◌<◌, [], ◌∷◌, reverse, OnOk};
ghost use Rattle.alpha_isa.specs.declared.insn.Fields.TheVariants as fields;
ghost use Rattle.alpha_isa.specs.Lawful.{AreLawfulFields};
ghost use Rattle.alpha_items.specs.declared.item.AsmItem.TheVariants as item;

use alpha_isa::insn::{BranchOp, Fields, Insn32, MemoryOp};
use alpha_items::item::AsmItem;
use std::alloc::{AllocError, Global};
use std::marker::Model;

/// The items so far. Contracts see them from the first one on; each call puts one in front of them.
#[derive(Drop)]
pub struct FrameItems {
    /// From the last one on.
    items: Vec<AsmItem>,
}

impl Model for FrameItems {
    ghost use Rattle.std.specs.Prelude.{List, reverse};
    ghost use Rattle.alpha_items.specs.declared.item.AsmItem.{AsmItem};

    ghost Value = { List AsmItem };

    ghost view = { λ i. reverse i.items.items };
}

impl FrameItems {
    /// No item. Takes no memory.
    pub fn new(alloc: Global) -> FrameItems
        ensures { result ≡ [] }
    {
        FrameItems {
            items: Vec::new(alloc),
        }
    }

    /// An item in front of the others. It fails only where memory is short.
    pub fn put(&mut self, item: AsmItem) -> Result<(), AllocError>
        ensures { OnOk result (self.new ≡ item ∷ self.old) }
    {
        self.items.push(item)?;
        Ok(())
    }

    /// A label.
    pub fn label(&mut self, label: u32) -> Result<(), AllocError>
        ensures { OnOk result (self.new ≡ item.Label label ∷ self.old) }
    {
        self.put(AsmItem::Label(label))
    }

    /// An instruction that stands as it is.
    pub fn plain(&mut self, fields: Fields) -> Result<(), AllocError>
        requires { AreLawfulFields fields }
        ensures { OnOk result (self.new ≡ item.Plain fields ∷ self.old) }
    {
        self.put(AsmItem::Plain(Insn32 { fields }))
    }

    /// An instruction with a displacement.
    pub fn memory(&mut self, op: MemoryOp, ra: u8, rb: u8, disp: i16) -> Result<(), AllocError>
        requires first { ra < 32 }
        requires second { rb < 32 }
        ensures { OnOk result (self.new ≡ item.Plain (fields.Memory op ra rb disp) ∷ self.old) }
    {
        self.plain(Fields::Memory { op, ra, rb, disp })
    }

    /// A branch to a label.
    pub fn branch(&mut self, op: BranchOp, ra: u8, label: u32) -> Result<(), AllocError>
        ensures { OnOk result (self.new ≡ item.Branch op ra label ∷ self.old) }
    {
        self.put(AsmItem::Branch { op, ra, label })
    }

    /// The items, the first one first. Takes no memory.
    pub fn into_vec(self) -> Vec<AsmItem>
        ensures { result.items ≡ self }
    {
        let FrameItems { mut items } = self;
        items.reverse();
        items
    }
}
