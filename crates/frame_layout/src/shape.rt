//! The frame of a function: its argument places, its objects, and the registers that it saves.

ghost use Rattle.std.specs.Prelude.{◌≡◌, ℕ, ◌+◌, ◌*◌, ◌-◌, ◌/◌, ◌≤◌, ◌<◌, ◌^◌, false, get_or, length, map, IfOk};
ghost use Rattle.mem_objects.specs.Layout.{place_after};
ghost use Rattle.alloc_model.specs.Effect.{width_of, widest_in, widest_call};
ghost use Rattle.alloc_model.specs.Places.{plan_of};
ghost use Rattle.frame_memory.specs.flat_frames.Shapes.{bytes_before, objects_size};
ghost use Rattle.frame_emitter.specs.Shapes.{plan_names};

use crate::names::is_named;
use alloc_model::allocation::Allocation;
use bk_containers::Seq;
use mem_objects::next_place;
use pass_core::function::MemoryLocal;
use std::alloc::{AllocError, Global};
use temp_ir::insn::TempInsn;

/// The arguments of a call; of other instructions none.
fn width_of(insn: &TempInsn) -> u32
    ensures { result ≡ width_of insn.now }
{
    match insn {
        TempInsn::Call { arguments, .. } => *arguments,
        _ => 0,
    }
}

/// The arguments of the widest call in a block.
#[tactic(auto, using(crate::proofs::Widths::widest_next))]
fn widest_in(insns: &[TempInsn]) -> u32
    ensures { result ≡ widest_in insns.now }
{
    let mut widest = 0u32;
    for insn in insns {
        widest = widest.max(width_of(insn));
    }
    widest
}

/// The arguments of the widest call.
#[tactic(auto, using(crate::proofs::Widths::call_next))]
pub(crate) fn widest_call(blocks: &[Seq<TempInsn>]) -> u32
    ensures { result ≡ widest_call blocks.now }
{
    let mut widest = 0u32;
    for block in blocks {
        widest = widest.max(widest_in(block.as_slice()));
    }
    widest
}

/// Where objects begin that lie behind one another, each up to a multiple of 8, and where they end.
#[derive(Drop)]
pub(crate) struct ObjectPlaces {
    pub(crate) places: Vec<u64>,
    pub(crate) end: u64,
}

/// The places of objects from an offset on.
#[tactic(auto, using(crate::proofs::Objects::end_next, crate::proofs::Objects::places_next))]
pub(crate) fn object_places(
    alloc: Global,
    objects: &[MemoryLocal],
    start: u64,
) -> Result<ObjectPlaces, AllocError>
    requires start { start ≤ 2 ^ 30 }
    requires size { objects_size (map (λ o. o.size) objects.now) ≤ 2 ^ 26 }
    ensures places { IfOk result (λ p.
        (k : ℕ) → get_or p.places.items k p.end ≡ start + bytes_before (map (λ o. o.size) objects.now) k) }
    ensures end { IfOk result (λ p. p.end ≡ start + objects_size (map (λ o. o.size) objects.now)) }
{
    let mut places = Vec::new(alloc);
    let mut end = start;
    for object in objects {
        places.push(end)?;
        end += next_place(object.size);
    }
    Ok(ObjectPlaces { places, end })
}

/// Which of the registers 9 to 15 an allocation names.
pub(crate) fn saved_registers(alloc: Global, a: &Allocation) -> Result<Vec<bool>, AllocError>
    ensures { IfOk result (λ saves.
        (k : ℕ) → k < 7 → get_or saves.items k false ≡ plan_names (plan_of a.now) (9 + k)) }
{
    let mut saves = Vec::new(alloc);
    for register in 9u8..16 {
        saves.push(is_named(a, register))?;
    }
    Ok(saves)
}
