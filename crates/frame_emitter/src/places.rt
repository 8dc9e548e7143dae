//! The places that a layout gives.

ghost use Rattle.std.specs.Prelude.{◌≡◌, ◌+◌, ◌≤◌, ◌<◌, ◌^◌};
ghost use Rattle.alpha_items.specs.Words.{most_address};
ghost use Rattle.frame_memory.specs.flat_frames.Shapes.{return_at, saved_at, slot_at, frame_object_at};
ghost use Rattle.frame_simulation.specs.function_shapes.Shapes.{plan_names};
ghost use Rattle.frame_emitter.specs.Layouts.{plan_in, setting_in, shape_in};

use crate::layout::FrameLayout;

impl<'a> FrameLayout<'a> {
    /// Where the return address stands in the frame.
    #[tactic(auto, using(crate::proofs::Sizes::return_near))]
    pub(crate) fn return_at(&self) -> u64
        ensures is { result ≡ return_at (shape_in self.now) }
        ensures near { result < most_address }
    {
        8 * u64::from(self.outgoing)
    }

    /// Where a register from 9 on is saved.
    #[tactic(auto, using(crate::proofs::Sizes::return_near))]
    pub(crate) fn saved_at(&self, register: u8) -> u64
        requires { register < 16 }
        ensures is { result ≡ saved_at (shape_in self.now) register }
        ensures near { result < most_address }
    {
        8 * u64::from(self.outgoing) + 8 + 8 * u64::from(register.saturating_sub(9))
    }

    /// The slot of a temporary.
    #[tactic(auto, using(crate::proofs::Sizes::slot_near))]
    pub(crate) fn slot_at(&self, temp: u32) -> u64
        requires { temp < (shape_in self.now).temps }
        ensures is { result ≡ slot_at (shape_in self.now) temp }
        ensures near { result < most_address }
    {
        8 * u64::from(self.outgoing) + 64 + 8 * u64::from(temp)
    }

    /// Where a memory local begins.
    pub(crate) fn object_at(&self, number: u32) -> u64
        ensures { result ≡ frame_object_at (shape_in self.now) number }
    {
        match self.objects.get(number as usize) {
            Some(at) => *at,
            None => self.end,
        }
    }

    /// Where an object of static storage begins in the data.
    pub(crate) fn global_at(&self, number: u32) -> u64
        ensures { result ≡ (setting_in self.now).global_at number }
    {
        match self.globals.get(number as usize) {
            Some(object) => object.offset,
            None => 0,
        }
    }

    /// Whether a register from 9 to 15 is saved.
    pub(crate) fn is_saved(&self, register: u8) -> bool
        requires low { 9 ≤ register }
        requires high { register < 16 }
        ensures { result ≡ plan_names (plan_in self.now) register }
    {
        match self.saves.get((register - 9) as usize) {
            Some(saved) => *saved,
            None => false,
        }
    }

    /// The label of a block.
    pub fn block_label(&self, block: u32) -> u32
        requires { self.now.first_label + block < 2 ^ 32 }
        ensures { result ≡ (setting_in self.now).block_label block }
    {
        self.first_label + block
    }
}
