//! What is asked of instructions.

ghost use Rattle.std.specs.Prelude.{◌≡◌};
ghost use Rattle.std.specs.List.{list_all};
ghost use Rattle.frame_checks.specs.model.Asked.{is_asked};

use frame_emitter::insns::FUNCTIONS;
use mem_objects::DataObject;
use pass_core::block::Block;
use pass_core::function::MemoryLocal;
use suifvm_ir::objects::place_reaches;
use suifvm_ir::program::MOST_PROGRAM_SIZE;
use temp_ir::insn::TempInsn;

/// Whether an instruction is as is asked.
fn insn_asks(
    globals: &[DataObject],
    objects: &[MemoryLocal],
    first_label: u32,
    insn: &TempInsn,
) -> bool
    ensures { result ≡ is_asked globals.now objects.now first_label insn.now }
{
    match insn {
        TempInsn::ObjectAddress { place, plus, .. } => {
            place_reaches(globals, objects, *plus, *place)
        }
        TempInsn::Call {
            function,
            arguments,
        } => u64::from(FUNCTIONS) + u64::from(*function) < u64::from(first_label)
            && *arguments <= MOST_PROGRAM_SIZE,
        _ => true,
    }
}

/// Whether each instruction of a block is.
#[tactic(auto, using(crate::proofs::Loops::insns_next, crate::proofs::Loops::insns_wrong))]
fn block_asks(
    globals: &[DataObject],
    objects: &[MemoryLocal],
    first_label: u32,
    block: &Block<TempInsn>,
) -> bool
    ensures { result ≡ list_all (is_asked globals.now objects.now first_label) block.now }
{
    for line in block.insns.iter() {
        let (_id, insn) = line;
        if !insn_asks(globals, objects, first_label, insn) {
            return false;
        }
    }
    true
}

/// Whether each instruction of each block is.
#[tactic(auto, using(crate::proofs::Loops::all_next, crate::proofs::Loops::all_wrong, crate::proofs::Loops::all_end))]
pub(crate) fn all_ask(
    globals: &[DataObject],
    objects: &[MemoryLocal],
    first_label: u32,
    blocks: &[Block<TempInsn>],
) -> bool
    ensures { result ≡ list_all (list_all (is_asked globals.now objects.now first_label)) blocks.now }
{
    for block in blocks {
        if !block_asks(globals, objects, first_label, block) {
            return false;
        }
    }
    true
}
