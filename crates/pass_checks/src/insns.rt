//! What is asked of a single instruction.

ghost use Rattle.std.specs.Prelude.{◌<◌, All, take};
ghost use Rattle.std.specs.Bool.{OnTrue};
ghost use Rattle.pass_core.specs.Functions.{GoesToBlocks, UsesRegisters, IsStraight};

use pass_core::Insn;

/// Whether each block that an instruction goes to is one of so many, and not the entry.
#[tactic(auto, using(crate::proofs::Alls::all_found, crate::proofs::Alls::all_past))]
pub(crate) fn goes_to_blocks<I: Insn>(insn: &I, blocks: usize) -> bool
    ensures { OnTrue result (GoesToBlocks I.targets blocks insn.now) }
{
    for k in 0..u32::MAX {
        match insn.target_at(k) {
            None => return true,
            Some(target) => {
                if target == 0 || target as usize >= blocks {
                    return false;
                }
            }
        }
    }
    false
}

/// Whether each register that an instruction reads is one of so many.
#[tactic(auto, using(crate::proofs::Alls::all_found, crate::proofs::Alls::all_past))]
fn reads_few<I: Insn>(insn: &I, registers: u32) -> bool
    ensures { OnTrue result (All (λ register. register < registers) (I.reads insn.now)) }
{
    for k in 0..u32::MAX {
        match insn.read_at(k) {
            None => return true,
            Some(register) => {
                if register >= registers {
                    return false;
                }
            }
        }
    }
    false
}

/// Whether each register that an instruction writes is one of so many.
#[tactic(auto, using(crate::proofs::Alls::all_found, crate::proofs::Alls::all_past))]
fn writes_few<I: Insn>(insn: &I, registers: u32) -> bool
    ensures { OnTrue result (All (λ register. register < registers) (I.writes insn.now)) }
{
    for k in 0..u32::MAX {
        match insn.write_at(k) {
            None => return true,
            Some(register) => {
                if register >= registers {
                    return false;
                }
            }
        }
    }
    false
}

/// Whether each register that an instruction names is one of so many.
pub(crate) fn uses_registers<I: Insn>(insn: &I, registers: u32) -> bool
    ensures { OnTrue result (UsesRegisters I.reads I.writes registers insn.now) }
{
    reads_few(insn, registers) && writes_few(insn, registers)
}

/// Whether an instruction is followed by the next one alone.
#[tactic(auto, using(crate::proofs::Alls::none_first))]
pub(crate) fn is_straight<I: Insn>(insn: &I) -> bool
    ensures { OnTrue result (IsStraight I.targets I.flows_on insn.now) }
{
    insn.target_at(0).is_none() && insn.goes_on()
}
