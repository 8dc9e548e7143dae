//! The scan of a block, with the maps of its top and bottom.

ghost use Rattle.std.specs.Prelude.{◌≡◌, ◌+◌, ◌<◌, ◌^◌, All, length, IfOk, OnOk};
ghost use Rattle.pass_core.specs.Functions.{UsesRegisters};
ghost use Rattle.temp_ir.specs.Insns.{reads_of, writes_of};
ghost use Rattle.binpack_blocks.specs.model.Lists.{ReadsWanted};
ghost use Rattle.binpack_blocks.specs.model.Wanted.{LifetimesRise};
ghost use Rattle.binpack_blocks.specs.model.Whole.{AddsBlock};

use crate::bins::Scan;
use crate::block::Lists;
use alloc_model::allocation::TempPlace;
use alloc_rules::scan::Lifetimes;
use bk_bits::BitSet;
use bk_containers::Seq;
use pass_core::block::Block;
use std::alloc::{AllocError, Global};
use temp_ir::insn::TempInsn;

/// For each block so far, the places at its top of what is live there, and those at its end.
#[derive(Drop)]
pub struct Maps {
    /// For each block, the places at its top.
    pub top: Seq<Seq<TempPlace>>,
    /// For each block, the places at its end.
    pub bottom: Seq<Seq<TempPlace>>,
}

impl Scan {
    /// Scans a block, whose first instruction has a number, where these are live at its top; gives the number behind it.
    pub fn scan_placed(
        &mut self,
        alloc: Global,
        maps: &mut Maps,
        lists: &mut Lists,
        block: &Block<TempInsn>,
        live: &BitSet,
        lives: &Lifetimes,
        first: u32,
    ) -> Result<u32, AllocError>
        requires few { first + length block.now < 2 ^ 30 }
        requires bound { length live.now ≡ self.old.temps }
        requires parts { length lives.now.parts ≡ self.old.temps }
        requires rise { LifetimesRise lives.now }
        requires low { All (UsesRegisters reads_of writes_of self.old.temps) block.now }
        requires wanted { ReadsWanted lives.now first block.now }
        ensures adds { OnOk result (AddsBlock self.old.temps lives.now first block.now live.now self.old.bins.items
            maps.old maps.new lists.old lists.new self.new.bins.items) }
        ensures next { IfOk result (λ next. next ≡ first + length block.now) }
        ensures temps { OnOk result (self.new.temps ≡ self.old.temps) }
    {
        self.begin(alloc)?;
        let top = self.places(alloc, false, live)?;
        maps.top.push(top)?;
        let next = self.scan_block(alloc, lists, block, lives, first)?;
        let bottom = self.places(alloc, true, live)?;
        maps.bottom.push(bottom)?;
        Ok(next)
    }
}
