//! Blocks as they are laid out, item by item.

ghost use Rattle.std.specs.Prelude.{◌≡◌, ◌+◌, ◌-◌, ◌^◌, ◌<◌, length, OnOk};
ghost use Rattle.lowering_code.specs.Layout.{with_insn, end_block, end_with, open_loop, add_item, no_block};
ghost use Rattle.lowering_layout.specs.Views.{layout_view, CountsRegisters};

use crate::heads::Heads;
use crate::layout::BlockLayout;
use crate::tops::insn_top;
use bk_containers::Seq;
use lowering_code::CodeItem;
use pass_core::block::Block;
use std::alloc::{AllocError, Global};
use std::mem;
use suifvm_ir::insn::{VmBranchOp, VmInsn};

impl BlockLayout {
    /// Nothing is laid out. Takes no memory.
    pub fn new(alloc: Global, last: u32) -> BlockLayout
        ensures is { layout_view result ≡ no_block last }
        ensures counted { CountsRegisters result }
    {
        BlockLayout {
            last,
            blocks: Seq::new(alloc),
            insns: Block::new(alloc),
            heads: Heads::new(alloc),
            temps: 0,
        }
    }

    /// An instruction behind the others. It fails only where memory is short, or the block is full.
    #[tactic(auto, using(crate::proofs::Sizes::put_top))]
    pub fn put(&mut self, insn: VmInsn) -> Result<(), AllocError>
        requires { CountsRegisters self.old }
        ensures is { OnOk result (layout_view self.new ≡ with_insn insn (layout_view self.old)) }
        ensures counted { OnOk result (CountsRegisters self.new) }
    {
        let top = insn_top(&insn);
        self.insns.push(insn)?;
        self.temps = self.temps.max(top);
        Ok(())
    }

    /// The block is whole. It fails only where memory is short.
    #[tactic(auto, using(crate::proofs::Sizes::close_top))]
    pub fn close(&mut self, alloc: Global) -> Result<(), AllocError>
        requires { CountsRegisters self.old }
        ensures is { OnOk result (layout_view self.new ≡ end_block (layout_view self.old)) }
        ensures counted { OnOk result (CountsRegisters self.new) }
    {
        let block = mem::replace(&mut self.insns, Block::new(alloc));
        self.blocks.push(block)
    }

    /// The block ends with an instruction.
    pub fn end(&mut self, alloc: Global, insn: VmInsn) -> Result<(), AllocError>
        requires { CountsRegisters self.old }
        ensures is { OnOk result (layout_view self.new ≡ end_with insn (layout_view self.old)) }
        ensures counted { OnOk result (CountsRegisters self.new) }
    {
        self.put(insn)?;
        self.close(alloc)
    }

    /// The body of a loop begins.
    fn begin(&mut self) -> Result<(), AllocError>
        requires counted { CountsRegisters self.old }
        requires room { length self.old.blocks < 2 ^ 32 }
        ensures is { OnOk result (layout_view self.new ≡ open_loop (layout_view self.old)) }
        ensures counted { OnOk result (CountsRegisters self.new) }
    {
        self.heads.push(self.blocks.len() as u32)?;
        self.put(VmInsn::Mark)
    }

    /// The number of the block with a name.
    fn block(&self, name: usize) -> u32
        ensures { result ≡ self.now.last - name }
    {
        u64::from(self.last).saturating_sub(name as u64) as u32
    }

    /// An item behind the others. It fails only where memory is short, or a block is full.
    pub fn item(&mut self, alloc: Global, item: CodeItem) -> Result<(), AllocError>
        requires counted { CountsRegisters self.old }
        requires room { length self.old.blocks + 1 < 2 ^ 32 }
        ensures is { OnOk result (layout_view self.new ≡ add_item item (layout_view self.old)) }
        ensures counted { OnOk result (CountsRegisters self.new) }
    {
        match item {
            CodeItem::Start => self.close(alloc),
            CodeItem::Plain(insn) => self.put(insn),
            CodeItem::Jump(name) => {
                let block = self.block(name);
                self.end(alloc, VmInsn::Jump { block })
            }
            CodeItem::Branch {
                op,
                ty,
                source,
                name,
            } => {
                let block = self.block(name);
                self.end(
                    alloc,
                    VmInsn::Branch {
                        op,
                        ty,
                        source,
                        block,
                    },
                )
            }
            CodeItem::Loop(name) => {
                let block = self.block(name);
                self.end(alloc, VmInsn::Jump { block })?;
                self.begin()
            }
            CodeItem::Enter => {
                self.close(alloc)?;
                self.begin()
            }
            CodeItem::Again { ty, source } => {
                let block = self.heads.pop();
                self.end(
                    alloc,
                    VmInsn::Branch {
                        op: VmBranchOp::IfTrue,
                        ty,
                        source,
                        block,
                    },
                )
            }
            CodeItem::Repeat => {
                let block = self.heads.pop();
                self.end(alloc, VmInsn::Jump { block })
            }
            CodeItem::Return(value) => self.end(alloc, VmInsn::Return { value }),
        }
    }
}
