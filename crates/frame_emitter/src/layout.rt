//! Where the items of a function find what they refer to.

ghost use Rattle.std.specs.Prelude.{◌≡◌, ℕ, ◌+◌, ◌≤◌, ◌<◌, ◌^◌, false, get_or, length};
ghost use Rattle.alloc_model.specs.Places.{plan_of};
ghost use Rattle.frame_memory.specs.flat_frames.Shapes.{frame_object_at, frame_size};
ghost use Rattle.frame_simulation.specs.function_shapes.Shapes.{shape_of, plan_names};
ghost use Rattle.frame_emitter.specs.Settings.{with_blocks};

use alloc_model::allocation::Allocation;
use bk_containers::Seq;
use mem_objects::DataObject;
use temp_ir::insn::TempInsn;

/// The frame of a function with an allocation, and its labels.
#[derive(Drop)]
pub struct FrameLayout<'a> {
    pub allocation: &'a Allocation,
    /// The instructions of each block.
    pub blocks: &'a [Seq<TempInsn>],
    /// The objects of static storage.
    pub globals: &'a [DataObject],
    /// The label of block 0. The other blocks have the labels behind it.
    pub first_label: u32,
    /// The label of the part by which the function is left.
    pub exit_label: u32,
    /// How many argument places the frame has.
    pub outgoing: u32,
    /// The bytes of the frame.
    pub size: u64,
    /// Where each memory local begins, in bytes from the stack pointer on.
    pub objects: Vec<u64>,
    /// Where the last memory local ends.
    pub end: u64,
    /// Which of the registers 9 to 15 are saved.
    pub saves: Vec<bool>,
    pub ghost outgoing_is: { outgoing ≡ (shape_of (with_blocks (plan_of allocation.now) blocks.now)).outgoing },
    pub ghost size_is: { size ≡ frame_size (shape_of (with_blocks (plan_of allocation.now) blocks.now)) },
    pub ghost objects_are: { (k : ℕ) →
        get_or objects.items k end ≡ frame_object_at (shape_of (with_blocks (plan_of allocation.now) blocks.now)) k },
    pub ghost saves_are: { (k : ℕ) → k < 7 →
        get_or saves.items k false ≡ plan_names (with_blocks (plan_of allocation.now) blocks.now) (9 + k) },
    pub ghost exit_is: { exit_label ≡ first_label + length blocks.now },
    pub ghost size_small: { size ≤ 2 ^ 29 },
}
