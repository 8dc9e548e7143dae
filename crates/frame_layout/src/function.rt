//! The items of a whole function.

ghost use Rattle.std.specs.Prelude.{◌≡◌, ◌+◌, ◌<◌, ◌≤◌, ◌^◌, [], ◌∷◌, length, map, IfOk};
ghost use Rattle.alpha_items.specs.declared.item.AsmItem.TheVariants as item;
ghost use Rattle.pass_core.specs.Functions.{count_of};
ghost use Rattle.alloc_model.specs.Effect.{widest_call};
ghost use Rattle.alloc_model.specs.Places.{plan_of};
ghost use Rattle.alloc_model.specs.Faithful.{Faithful};
ghost use Rattle.frame_memory.specs.flat_frames.Shapes.{frame_size, objects_size};
ghost use Rattle.frame_steps.specs.instruction_items.Items.{function_label};
ghost use Rattle.frame_emitter.specs.Items.{function_items};
ghost use Rattle.frame_emitter.specs.Shapes.{shape_of};
ghost use Rattle.frame_emitter.specs.Settings.{near_plan, near_blocks, setting_of, with_blocks};
ghost use Rattle.frame_emitter.specs.Layouts.{plan_in, setting_in};
ghost use Rattle.frame_layout.specs.Conditions.{CanBeLaidOut};
ghost use Rattle.frame_layout.specs.model.Sound.{IsSound};

use crate::blocks::blocks_items;
use crate::edges::EdgePlaces;
use crate::near::near_blocks;
use crate::shape::{object_places, saved_registers, widest_call};
use alloc_model::allocation::Allocation;
use alpha_items::final_fn::FinalFn;
use alpha_items::item::AsmItem;
use alpha_items::name::FunctionName;
use bk_containers::Seq;
use frame_emitter::insns::FUNCTIONS;
use frame_emitter::items::FrameItems;
use frame_emitter::layout::FrameLayout;
use frame_emitter::parts::{entry_part, exit_items};
use mem_objects::DataObject;
use std::alloc::{AllocError, Global};
use temp_ir::insn::TempInsn;

/// How a frame is laid out.
fn layout_of<'a>(
    alloc: Global,
    a: &'a Allocation,
    blocks: &'a [Seq<TempInsn>],
    globals: &'a [DataObject],
    first_label: u32,
) -> Result<FrameLayout<'a>, AllocError>
    requires temps { a.now.func.temps ≤ 2 ^ 24 }
    requires arguments { widest_call blocks.now ≤ 2 ^ 24 }
    requires objects { objects_size (map (λ o. o.size) a.now.func.objects) ≤ 2 ^ 26 }
    requires labels { first_label + length blocks.now < 2 ^ 32 }
    ensures plan { IfOk result (λ l. plan_in l ≡ with_blocks (plan_of a.now) blocks.now) }
    ensures setting { IfOk result (λ l.
        setting_in l ≡ setting_of (with_blocks (plan_of a.now) blocks.now) globals.now first_label) }
    ensures blocks { IfOk result (λ l. l.blocks.now ≡ blocks.now) }
    ensures allocation { IfOk result (λ l. l.allocation.now ≡ a.now) }
    ensures label { IfOk result (λ l. l.first_label ≡ first_label) }
{
    let outgoing = widest_call(blocks).saturating_sub(6);
    let start = 8 * u64::from(outgoing) + 64 + 8 * u64::from(a.func.temps);
    let places = object_places(alloc, a.func.objects.as_slice(), start)?;
    let saves = saved_registers(alloc, a)?;
    let size = (places.end + 15) / 16 * 16;
    Ok(FrameLayout {
        allocation: a,
        blocks,
        globals,
        first_label,
        exit_label: first_label + blocks.len() as u32,
        outgoing,
        size,
        objects: places.places,
        end: places.end,
        saves,
    })
}

/// How many instructions blocks have.
fn insn_count(blocks: &[Seq<TempInsn>]) -> usize
    requires { count_of blocks.now < 2 ^ 30 }
    ensures { result ≡ count_of blocks.now }
{
    let mut count = 0usize;
    for block in blocks {
        count += block.len();
    }
    count
}

/// The items of a function behind its name.
fn items_of(alloc: Global, layout: &FrameLayout<'_>, number: u32) -> Result<FrameItems, AllocError>
    requires sound { IsSound layout.now }
    requires number { function_label number < 2 ^ 32 }
    ensures { IfOk result (λ items.
        items ≡ function_items (plan_in layout.now) (setting_in layout.now) number []) }
{
    let edges = EdgePlaces::new(alloc, layout.blocks, layout.allocation.edges.as_slice())?;
    let count = insn_count(layout.blocks);
    let mut items = FrameItems::new(alloc);
    exit_items(&mut items, layout)?;
    blocks_items(&mut items, layout, &edges, count)?;
    entry_part(&mut items, layout)?;
    items.label(FUNCTIONS + number)?;
    Ok(items)
}

/// The function of a faithful allocation as items: its name, its entry at the label of its number, its entry part, its
/// blocks with labels from the first one on, and its exit part with the label behind those. Registers and slots are
/// those of the allocation; objects begin at multiples of 8, and the frame is a multiple of 16. An argument place that
/// is numbered past 2 ^ 24, which no run has, counts as that one. It fails only where memory is short.
pub fn finalise(
    alloc: Global,
    a: &Allocation,
    globals: &[DataObject],
    number: u32,
    first_label: u32,
) -> Result<FinalFn, AllocError>
    requires faithful { Faithful (plan_of a.now) }
    requires can { CanBeLaidOut a.now globals.now number first_label }
    ensures name { IfOk result (λ f. f.name ≡ a.now.func.name) }
    ensures items { IfOk result (λ f. f.items.items ≡ item.Name a.now.func.name ∷
        function_items (near_plan (plan_of a.now)) (setting_of (near_plan (plan_of a.now)) globals.now first_label)
        number []) }
    ensures frame { IfOk result (λ f. f.frame ≡ frame_size (shape_of (near_plan (plan_of a.now)))) }
    ensures labels { IfOk result (λ f. f.labels ≡ length a.now.func.blocks + 1) }
{
    let blocks = near_blocks(alloc, a.func.blocks.as_slice())?;
    let layout = layout_of(alloc, a, blocks.as_slice(), globals, first_label)?;
    let mut items = items_of(alloc, &layout, number)?;
    let name = a.func.name.as_slice();
    items.put(AsmItem::Name(FunctionName::from_slice(alloc, name)?))?;
    Ok(FinalFn {
        name: FunctionName::from_slice(alloc, name)?,
        items: items.into_vec(),
        frame: layout.size,
        labels: blocks.len() as u32 + 1,
    })
}
