//! A walk along a block and a plan, which makes the new block and finds whether it does the same.

ghost use Rattle.std.specs.Prelude.{◌≡◌, ◌⊎◌, ℕ, Some, None, [], true, IfSome, IfOk, List, Bool};
ghost use Rattle.std.specs.Bool.{OnTrue};
ghost use Rattle.bk_bits.specs.Sets.{has};
ghost use Rattle.temp_ir.specs.Insns.{targets_of};
ghost use Rattle.block_coalescing.specs.Forms.{write_of};
ghost use Rattle.block_coalescing.specs.Walks.{IsBehind, IsHome, Walked, BlockWalked};
ghost use Rattle.block_coalescing.specs.model.Steps.{IsGone, IsKept, StepIs, Puts};
ghost use Rattle.block_coalescing.specs.model.Tables.{name_of};

use crate::renamed::{copied, is_pure, renamed};
use crate::table::NameTable;
use bk_bits::BitSet;
use pass_core::Insn;
use pass_core::block::Block;
use std::alloc::{AllocError, Global};
use temp_ir::insn::TempInsn;

/// What is planned for an instruction: it goes, or it stays and puts its result into a temporary.
#[derive(Clone, Copy)]
pub(crate) enum Plan {
    Goes,
    Stays(u32),
}

/// What becomes of an instruction, unless the walk fails.
#[derive(Clone, Copy)]
pub(crate) enum Step {
    Fails,
    Goes,
    Stays(TempInsn),
}

/// Whether a temporary stands in its own place.
fn stands_home(names: &NameTable, top: &BitSet, temp: u32) -> bool
    ensures { OnTrue result (name_of names.now top.now temp ≡ Some temp) }
{
    match names.name(top, temp) {
        Some(name) => name == temp,
        None => false,
    }
}

/// Whether all temporaries do that are live at the bottom.
#[tactic(auto, using(crate::proofs::Homes::home_more, crate::proofs::Homes::home_end))]
fn is_home(names: &NameTable, top: &BitSet, bottom: &BitSet) -> bool
    ensures { OnTrue result (IsHome (has bottom.now) (name_of names.now top.now)) }
{
    let mut from = 0;
    for _turn in 0..u32::MAX {
        let Some(temp) = bottom.next_from(from) else {
            return true;
        };
        if !stands_home(names, top, temp) {
            return false;
        }
        let Some(next) = temp.checked_add(1) else {
            return false;
        };
        from = next;
    }
    false
}

/// Whether they do where an instruction may jump.
fn leaves_home(names: &NameTable, top: &BitSet, bottom: &BitSet, insn: TempInsn) -> bool
    ensures { OnTrue result
        ((targets_of insn ≡ []) ⊎ IsHome (has bottom.now) (name_of names.now top.now)) }
{
    match insn.target_at(0) {
        None => true,
        Some(_) => is_home(names, top, bottom),
    }
}

/// Behind an instruction that stays.
fn behind(names: &mut NameTable, old: TempInsn, new: TempInsn) -> bool
    ensures { OnTrue result ((top : List Bool) →
        IsBehind (write_of old) (write_of new) (name_of names.old top) (name_of names.new top)) }
{
    match (old.write_at(0), new.write_at(0)) {
        (Some(from), Some(to)) => names.write(from, to),
        (None, None) => true,
        (Some(_), None) => false,
        (None, Some(_)) => false,
    }
}

/// An instruction stays.
fn stays(
    names: &mut NameTable,
    top: &BitSet,
    bottom: &BitSet,
    temps: u32,
    insn: TempInsn,
    to: u32,
) -> Option<TempInsn>
    ensures { IfSome result (λ y.
        IsKept temps (has bottom.now) (name_of names.old top.now) (name_of names.new top.now) insn y) }
{
    match renamed(names, top, temps, insn, to) {
        None => None,
        Some(new) => {
            if !leaves_home(names, top, bottom, insn) {
                return None;
            }
            if !behind(names, insn, new) {
                return None;
            }
            Some(new)
        }
    }
}

/// An instruction goes with what it writes.
fn loses(names: &mut NameTable, temps: u32, insn: TempInsn) -> bool
    ensures { OnTrue result ((top : List Bool) →
        IsGone temps (name_of names.old top) (name_of names.new top) insn) }
{
    if !is_pure(insn) {
        return false;
    }
    match insn.write_at(0) {
        None => false,
        Some(temp) => names.note(temp, None),
    }
}

/// An instruction goes.
fn goes(names: &mut NameTable, top: &BitSet, temps: u32, insn: TempInsn) -> bool
    ensures { OnTrue result (IsGone temps (name_of names.old top.now) (name_of names.new top.now) insn) }
{
    match copied(insn) {
        None => loses(names, temps, insn),
        Some((destination, source)) => {
            let name = names.name(top, source);
            names.note(destination, name)
        }
    }
}

/// One instruction.
fn take_step(
    names: &mut NameTable,
    top: &BitSet,
    bottom: &BitSet,
    temps: u32,
    insn: TempInsn,
    plan: Plan,
) -> Step
    ensures { StepIs temps (has bottom.now) (name_of names.old top.now) (name_of names.new top.now) insn result }
{
    match plan {
        Plan::Goes => {
            if goes(names, top, temps, insn) {
                Step::Goes
            } else {
                Step::Fails
            }
        }
        Plan::Stays(to) => match stays(names, top, bottom, temps, insn, to) {
            None => Step::Fails,
            Some(new) => Step::Stays(new),
        },
    }
}

/// One instruction, with what becomes of it put behind what was made.
fn put_step(
    names: &mut NameTable,
    top: &BitSet,
    bottom: &BitSet,
    temps: u32,
    insn: TempInsn,
    plan: Plan,
    made: &mut Block<TempInsn>,
) -> Result<bool, AllocError>
    ensures { IfOk result (λ good. OnTrue good (Puts temps (has bottom.now) (name_of names.old top.now)
        (name_of names.new top.now) insn made.old made.new)) }
{
    match take_step(names, top, bottom, temps, insn, plan) {
        Step::Fails => Ok(false),
        Step::Goes => Ok(true),
        Step::Stays(new) => {
            made.push(new)?;
            Ok(true)
        }
    }
}

/// What is planned at a place.
fn plan_at(plans: &[Plan], at: usize) -> Plan {
    match plans.get(at) {
        None => Plan::Goes,
        Some(plan) => *plan,
    }
}

/// All instructions of a block.
fn walk_insns(
    alloc: Global,
    names: &mut NameTable,
    top: &BitSet,
    bottom: &BitSet,
    temps: u32,
    insns: &[TempInsn],
    plans: &[Plan],
) -> Result<Option<Block<TempInsn>>, AllocError>
    ensures { IfOk result (λ made. IfSome made (λ ys.
        Walked temps (has bottom.now) (name_of names.old top.now) insns.now ys)) }
{
    let mut made = Block::new(alloc);
    for at in 0..insns.len() {
        let plan = plan_at(plans, at);
        if !put_step(names, top, bottom, temps, insns[at], plan, &mut made)? {
            return Ok(None);
        }
    }
    if !is_home(names, top, bottom) {
        return Ok(None);
    }
    Ok(Some(made))
}

/// A block by a plan, or nothing where the plan does not keep what it does.
pub(crate) fn walk_block(
    alloc: Global,
    names: &mut NameTable,
    top: &BitSet,
    bottom: &BitSet,
    temps: u32,
    insns: &[TempInsn],
    plans: &[Plan],
) -> Result<Option<Block<TempInsn>>, AllocError>
    ensures { IfOk result (λ made. IfSome made (λ ys.
        BlockWalked temps (has top.now) (has bottom.now) insns.now ys)) }
{
    if !names.begin() {
        return Ok(None);
    }
    walk_insns(alloc, names, top, bottom, temps, insns, plans)
}
