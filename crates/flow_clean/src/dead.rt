//! Functions without the instructions whose writes nothing reads.

ghost use Rattle.std.specs.Prelude.{◌≡◌, ◌<◌, ◌^◌, ◌++◌, ◌∷◌, [], All, length, IfOk, OnOk};
ghost use Rattle.pass_core.specs.Functions.{AllInsns, UsesRegisters};
ghost use Rattle.bk_bits.specs.Sets.{has};
ghost use Rattle.bk_ilist.specs.Listing.{items};
ghost use Rattle.bitvector_flow.specs.Flows.{has_at, AreBounded};
ghost use Rattle.bitvector_flow.specs.Lives.{HasFewRegisters};
ghost use Rattle.suifvm_ir.specs.Insns.{reads_of, writes_of};
ghost use Rattle.flow_clean.specs.Chains.{GoesBackToMarks};
ghost use Rattle.flow_clean.specs.Dead.{cleaned, IsCleanedOf, MeasuresFall};
ghost use Rattle.flow_clean.specs.model.Walks.{IsKept, IsVisited, cleaned_from, AreCleanedBlocks};

use crate::lists::push_front;
use crate::origins::with_origins;
use crate::wanted::{is_unwanted, step_back};
use bitvector_flow::liveness;
use bk_bits::BitSet;
use bk_containers::Seq;
use bk_ilist::IndexList;
use cfg::build;
use pass_core::block::Block;
use pass_core::function::Func;
use std::alloc::{AllocError, Global};
use suifvm_ir::insn::VmInsn;

/// Puts an instruction before those that stay, and makes the set that of what is wanted before it.
fn keep_insn(
    alloc: Global,
    kept: &mut Block<VmInsn>,
    wanted: &mut BitSet,
    insn: &VmInsn,
) -> Result<(), AllocError>
    requires inside { UsesRegisters reads_of writes_of (length wanted.now) insn.now }
    requires few { length (reads_of insn.now) < 2 ^ 32 }
    ensures { OnOk result (IsKept insn.now kept.old kept.new wanted.old wanted.new) }
{
    push_front(kept, with_origins(alloc, &[], 0, insn)?)?;
    step_back(wanted, insn);
    Ok(())
}

/// Does so unless the instruction may be left out.
#[tactic(auto, using(crate::proofs::WantedSets::visited_dead, crate::proofs::WantedSets::visited_kept))]
fn visit_insn(
    alloc: Global,
    kept: &mut Block<VmInsn>,
    wanted: &mut BitSet,
    insn: &VmInsn,
) -> Result<(), AllocError>
    requires inside { UsesRegisters reads_of writes_of (length wanted.now) insn.now }
    requires few { length (reads_of insn.now) < 2 ^ 32 }
    ensures { OnOk result (IsVisited insn.now kept.old kept.new wanted.old wanted.new) }
{
    if is_unwanted(wanted, insn) {
        return Ok(());
    }
    keep_insn(alloc, kept, wanted, insn)
}

/// The instructions of a list without those that are dead, where a set has what is live behind them. What is left in the
/// set is of no use.
fn clean_list(
    alloc: Global,
    list: &IndexList<VmInsn>,
    wanted: &mut BitSet,
) -> Result<Block<VmInsn>, AllocError>
    requires inside { All (UsesRegisters reads_of writes_of (length wanted.now)) (items list.now.pairs) }
    requires few { All (HasFewRegisters reads_of writes_of) (items list.now.pairs) }
    ensures kept { IfOk result (λ kept. kept ≡ cleaned (has wanted.old) (items list.now.pairs)) }
    ensures bound { OnOk result (length wanted.new ≡ length wanted.old) }
{
    let mut kept = Block::new(alloc);
    // no id stands twice, so the walk comes nearer to the front with each step
    let _given = list.made();
    let mut at = list.last();
    while let Some(id) = at {
        visit_insn(alloc, &mut kept, wanted, list.get(id))?;
        at = list.prev(id);
    }
    Ok(kept)
}

/// Puts a block without its dead instructions behind those so far, where a set has what is live at its bottom.
fn push_cleaned(
    alloc: Global,
    made: &mut Seq<Block<VmInsn>>,
    block: &Block<VmInsn>,
    wanted: &mut BitSet,
    bottom: &BitSet,
) -> Result<(), AllocError>
    requires inside { All (UsesRegisters reads_of writes_of (length wanted.now)) block.now }
    requires few { All (HasFewRegisters reads_of writes_of) block.now }
    requires bottom { length bottom.now ≡ length wanted.now }
    ensures made { OnOk result (made.new ≡ made.old ++ cleaned (has bottom.now) block.now ∷ []) }
    ensures bound { OnOk result (length wanted.new ≡ length wanted.old) }
{
    wanted.copy_from(bottom);
    made.push(clean_list(alloc, &block.insns, wanted)?)
}

/// The blocks without their dead instructions, where these sets have what is live at their bottoms.
fn clean_blocks(
    alloc: Global,
    blocks: &[Block<VmInsn>],
    bottoms: &[BitSet],
    registers: u32,
) -> Result<Seq<Block<VmInsn>>, AllocError>
    requires inside { AllInsns (UsesRegisters reads_of writes_of registers) blocks.now }
    requires few { AllInsns (HasFewRegisters reads_of writes_of) blocks.now }
    requires bottoms { AreBounded (length blocks.now) registers bottoms.now }
    ensures { IfOk result (λ made. made ≡ cleaned_from (has_at bottoms.now) 0 blocks.now) }
{
    let mut wanted = BitSet::new(alloc, registers)?;
    let mut made = Seq::new(alloc);
    for (place, block) in blocks.iter().enumerate() {
        push_cleaned(alloc, &mut made, block, &mut wanted, &bottoms[place])?;
    }
    Ok(made)
}

/// The blocks of a function without their dead instructions.
fn live_blocks(alloc: Global, f: &Func<VmInsn>) -> Result<Seq<Block<VmInsn>>, AllocError>
    requires { AllInsns (HasFewRegisters reads_of writes_of) f.now.blocks }
    ensures { IfOk result (λ made. AreCleanedBlocks f.now.temps f.now.blocks made) }
{
    let graph = build(alloc, f)?;
    let flow = liveness(alloc, f, &graph)?;
    clean_blocks(alloc, f.blocks.as_slice(), flow.bottom.as_slice(), f.temps)
}

/// The function without the instructions that do nothing but write a register which nothing reads, and may not trap: it
/// is neither read later in its block before its next write, nor, unless it is written again there, live at the bottom.
/// It fails only where memory is short.
pub fn dead_writes(alloc: Global, f: &Func<VmInsn>) -> Result<Func<VmInsn>, AllocError>
    requires marks { GoesBackToMarks f.now.blocks }
    requires few { AllInsns (HasFewRegisters reads_of writes_of) f.now.blocks }
    ensures made { IfOk result (λ g. IsCleanedOf f.now g) }
    ensures measures { IfOk result (λ g. MeasuresFall f.now g) }
{
    let blocks = live_blocks(alloc, f)?;
    let name = f.name.copy()?;
    let objects = Seq::from_vec(Vec::from_slice(alloc, f.objects.as_slice())?);
    Ok(Func {
        name,
        params: f.params,
        temps: f.temps,
        objects,
        blocks,
    })
}
