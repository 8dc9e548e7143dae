//! Instructions.

ghost use Rattle.std.specs.Prelude.{◌≡◌, ℕ, ◌<◌, Bool, List, length, slice_get};
ghost use Rattle.pass_core.specs.Insns.{InsnLaws};

use std::alloc::Global;

/// An instruction: it reads and writes registers by number, may go to a block by number, and may trap. It has at most
/// one target.
pub trait Insn: Drop {
    ghost reads: { Self → List ℕ };

    ghost writes: { Self → List ℕ };

    ghost targets: { Self → List ℕ };

    ghost with_target: { Self → ℕ → ℕ → Self };

    ghost jump_to: { ℕ → Self };

    ghost flows_on: { Self → Bool };

    ghost traps: { Self → Bool };

    /// The register that is read as number k, counted from 0. None where no more than k are read.
    fn read_at(&self, k: u32) -> Option<u32>
        ensures { result ≡ slice_get (reads self.now) k };

    /// The register that is written as number k. None where no more than k are written.
    fn write_at(&self, k: u32) -> Option<u32>
        ensures { result ≡ slice_get (writes self.now) k };

    /// The block that is target number k. None where there are no more than k targets.
    fn target_at(&self, k: u32) -> Option<u32>
        ensures { result ≡ slice_get (targets self.now) k };

    /// Makes a block target number k, and changes nothing else.
    fn set_target(&mut self, k: u32, block: u32)
        requires { k < length (targets self.old) }
        ensures { self.new ≡ with_target self.old k block };

    /// The jump to a block. Takes no memory.
    fn jump(alloc: Global, block: u32) -> Self
        ensures { result ≡ jump_to block };

    /// Whether what follows the instruction may be done after it: not after a jump or a return, and else so.
    fn goes_on(&self) -> bool
        ensures { result ≡ flows_on self.now };

    /// Whether the instruction itself may end the run by a trap.
    fn may_trap(&self) -> bool
        ensures { result ≡ traps self.now };

    ghost lawful: { InsnLaws reads writes targets with_target jump_to flows_on traps };
}
