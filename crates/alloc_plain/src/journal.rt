//! The journal of the plainest allocation of a function.

ghost use Rattle.std.specs.Prelude.{◌≡◌, ◌+◌, ◌++◌, ◌<◌, ◌^◌, None, All, length, IfOk, OnOk};
ghost use Rattle.pass_core.specs.Functions.{AllInsns, UsesRegisters, count_of};
ghost use Rattle.cfg.specs.Edges.{successors_from};
ghost use Rattle.temp_ir.specs.Insns.{reads_of, writes_of, targets_of, flows_on_of};
ghost use Rattle.alloc_model.specs.Temporaries.{code_of};
ghost use Rattle.alloc_rules.specs.Journal.{IsJournal};
ghost use Rattle.bitvector_flow.specs.Flows.{AreBounded};
ghost use Rattle.alloc_plain_lists.specs.Plain.{plain_plan};
ghost use Rattle.alloc_plain.specs.model.Held.{Holds, held_at_top, held_behind_all};
ghost use Rattle.alloc_plain.specs.model.Held as model;
ghost use Rattle.alloc_plain.specs.model.Visits.{visits_in_slots, journal_in_slots};

use crate::holders::{HeldTemporaries, at_top, nothing_held};
use crate::visits::put_visit;
use alloc_lifetime_ends::last_points;
use alloc_model::allocation::Event;
use bitvector_flow::liveness;
use bk_bits::BitSet;
use bk_containers::Seq;
use cfg::Graph;
use pass_core::block::Block;
use pass_core::function::Func;
use std::alloc::{AllocError, Global};
use temp_ir::insn::TempInsn;

/// What is held behind instructions, and the number of the one that follows.
#[derive(Clone, Copy)]
struct JournalPlace {
    held: HeldTemporaries,
    next: u32,
}

/// Puts the events of the visits of a block, whose first instruction has a number, and gives what is held behind it.
fn put_visits(
    alloc: Global,
    out: &mut Seq<Event>,
    ends: &[u32],
    block: &Block<TempInsn>,
    passed: JournalPlace,
) -> Result<JournalPlace, AllocError>
    requires few { passed.next + length block.now < 2 ^ 30 }
    requires few_ends { length ends.now < 2 ^ 32 }
    requires inside { All (UsesRegisters reads_of writes_of (length ends.now)) block.now }
    requires held { Holds (λ t. t < length ends.now) passed.held }
    ensures events { OnOk result
        (out.new ≡ out.old ++ visits_in_slots ends.now passed.next None block.now passed.held) }
    ensures behind { IfOk result (λ p. p.held ≡ held_behind_all block.now passed.held) }
    ensures holds { IfOk result (λ p. Holds (λ t. t < length ends.now) p.held) }
    ensures next { IfOk result (λ p. p.next ≡ passed.next + length block.now) }
{
    let mut held = passed.held;
    let mut next = passed.next;
    let mut previous = None;
    for line in block.insns.iter() {
        let (_id, insn) = line;
        held = put_visit(alloc, out, ends, next, previous, insn, held)?;
        next += 1;
        previous = Some(*insn);
    }
    Ok(JournalPlace { held, next })
}

/// Puts the events of the visits of all blocks, where these temporaries are live at their tops.
fn put_blocks(
    alloc: Global,
    out: &mut Seq<Event>,
    ends: &[u32],
    blocks: &[Block<TempInsn>],
    tops: &[BitSet],
) -> Result<(), AllocError>
    requires few { count_of blocks.now < 2 ^ 30 }
    requires few_ends { length ends.now < 2 ^ 32 }
    requires inside { AllInsns (UsesRegisters reads_of writes_of (length ends.now)) blocks.now }
    requires tops { AreBounded (length blocks.now) (length ends.now) tops.now }
    ensures { OnOk result
        (out.new ≡ out.old ++ journal_in_slots ends.now tops.now 0 0 blocks.now model.nothing_held) }
{
    let mut passed = JournalPlace {
        held: nothing_held(),
        next: 0,
    };
    for (number, block) in blocks.iter().enumerate() {
        let entered = JournalPlace {
            held: at_top(passed.held, &tops[number]),
            next: passed.next,
        };
        passed = put_visits(alloc, out, ends, block, entered)?;
    }
    Ok(())
}

/// The journal of the plainest allocation of a function with this flow graph. It fails only where memory is short.
pub(crate) fn journal_of(
    alloc: Global,
    f: &Func<TempInsn>,
    graph: &Graph,
) -> Result<Seq<Event>, AllocError>
    requires { graph.now.succ ≡ successors_from targets_of flows_on_of 0 f.now.blocks }
    ensures { IfOk result (λ events.
        IsJournal (plain_plan (code_of f.now) f.now.params f.now.temps) events) }
{
    // a number of 32 bits, so each temporary has one too
    let _temps = f.temps;
    let live = liveness(alloc, f, graph)?;
    let ends = last_points(alloc, f, &live)?;
    let mut events = Seq::new(alloc);
    put_blocks(
        alloc,
        &mut events,
        ends.as_slice(),
        f.blocks.as_slice(),
        live.top.as_slice(),
    )?;
    Ok(events)
}
