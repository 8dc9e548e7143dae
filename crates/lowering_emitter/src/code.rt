//! EmittedCode that is made from its end to its start.

ghost use Rattle.std.specs.Prelude.{◌≡◌, [], ◌∷◌, reverse, OnOk};
ghost use Rattle.lowering_code.specs.Items.{block_total};

use lowering_code::CodeItem;
use std::alloc::{AllocError, Global};
use std::marker::Model;
use suifvm_ir::insn::{TypedRegister, VmBranchOp, VmInsn};
use suifvm_ir::types::VmType;

/// The code so far. Contracts see its items from the first one on; each call puts one in front of them.
#[derive(Drop)]
pub struct EmittedCode {
    /// From the last one on.
    items: Vec<CodeItem>,
    /// How many blocks begin in it.
    blocks: usize,
}

impl Model for EmittedCode {
    ghost use Rattle.std.specs.Prelude.{◌≡◌, List, reverse};
    ghost use Rattle.lowering_code.specs.declared.item.CodeItem.{CodeItem};
    ghost use Rattle.lowering_code.specs.Items.{block_total};

    ghost Value = { List CodeItem };

    ghost view = { λ c. reverse c.items.items };

    ghost invariant = { λ c. c.blocks ≡ block_total (reverse c.items.items) };
}

impl EmittedCode {
    /// No code. Takes no memory.
    pub fn new(alloc: Global) -> EmittedCode
        ensures { result ≡ [] }
    {
        EmittedCode {
            items: Vec::new(alloc),
            blocks: 0,
        }
    }

    /// The name of the block that begins with the code so far.
    pub fn name(&self) -> usize
        ensures { result ≡ block_total self.now }
    {
        self.blocks
    }

    /// An instruction that the next one follows.
    pub fn plain(&mut self, insn: VmInsn) -> Result<(), AllocError>
        ensures { OnOk result (self.new ≡ CodeItem.Plain insn ∷ self.old) }
    {
        self.items.push(CodeItem::Plain(insn))?;
        Ok(())
    }

    /// An item behind which, or with which, a block begins.
    fn begin(&mut self, item: CodeItem) -> Result<(), AllocError>
        requires { block_total (item ∷ []) ≡ 1 }
        ensures { OnOk result (self.new ≡ item ∷ self.old) }
    {
        self.items.push(item)?;
        self.blocks += 1;
        Ok(())
    }

    /// A block begins.
    pub fn start(&mut self) -> Result<(), AllocError>
        ensures { OnOk result (self.new ≡ CodeItem.Start ∷ self.old) }
    {
        self.begin(CodeItem::Start)
    }

    /// A jump to the block with a name.
    pub fn jump(&mut self, name: usize) -> Result<(), AllocError>
        ensures { OnOk result (self.new ≡ CodeItem.Jump name ∷ self.old) }
    {
        self.begin(CodeItem::Jump(name))
    }

    /// A branch to the block with a name.
    pub fn branch(
        &mut self,
        op: VmBranchOp,
        ty: VmType,
        source: u32,
        name: usize,
    ) -> Result<(), AllocError>
        ensures { OnOk result (self.new ≡ CodeItem.Branch op ty source name ∷ self.old) }
    {
        self.begin(CodeItem::Branch {
            op,
            ty,
            source,
            name,
        })
    }

    /// A loop begins with a jump to its test.
    pub fn begin_loop(&mut self, test: usize) -> Result<(), AllocError>
        ensures { OnOk result (self.new ≡ CodeItem.Loop test ∷ self.old) }
    {
        self.begin(CodeItem::Loop(test))
    }

    /// A loop begins with its body.
    pub fn enter(&mut self) -> Result<(), AllocError>
        ensures { OnOk result (self.new ≡ CodeItem.Enter ∷ self.old) }
    {
        self.begin(CodeItem::Enter)
    }

    /// The loop goes on where the register is neither zero nor null.
    pub fn again(&mut self, ty: VmType, source: u32) -> Result<(), AllocError>
        ensures { OnOk result (self.new ≡ CodeItem.Again ty source ∷ self.old) }
    {
        self.begin(CodeItem::Again { ty, source })
    }

    /// The loop goes on.
    pub fn repeat(&mut self) -> Result<(), AllocError>
        ensures { OnOk result (self.new ≡ CodeItem.Repeat ∷ self.old) }
    {
        self.begin(CodeItem::Repeat)
    }

    /// The call ends.
    pub fn give(&mut self, value: Option<TypedRegister>) -> Result<(), AllocError>
        ensures { OnOk result (self.new ≡ CodeItem.Return value ∷ self.old) }
    {
        self.begin(CodeItem::Return(value))
    }

    /// The items, the last one first.
    pub fn into_items(self) -> Vec<CodeItem>
        ensures { reverse result.items ≡ self }
    {
        let EmittedCode { items, .. } = self;
        items
    }
}
