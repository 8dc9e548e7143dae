//! A pass and an instruction of each kind, by which generic code is shown at types.

ghost use Rattle.std.specs.Prelude.{◌≡◌, ◌/◌, ◌<◌, IfOk, IsTrue, ◌↔◌, length};

use crate::{Insn, Pass, Then};
use std::alloc::{AllocError, Global};
use std::test::Fail;

/// Halves a number.
#[derive(Drop)]
struct Halve;

impl Pass for Halve {
    type In = u32;

    type Out = u32;

    ghost keeps = { λ input output. output ≡ input / 2 };

    fn run(&self, _alloc: Global, input: u32) -> Result<u32, AllocError> {
        Ok(input / 2)
    }
}

/// Tests a number for zero.
#[derive(Drop)]
struct TestZero;

impl Pass for TestZero {
    type In = u32;

    type Out = bool;

    ghost keeps = { λ input output. IsTrue output ↔ (input ≡ 0) };

    fn run(&self, _alloc: Global, input: u32) -> Result<bool, AllocError> {
        Ok(input == 0)
    }
}

/// Whether the half of a number is zero, by two passes.
fn is_half_zero(alloc: Global, number: u32) -> Result<bool, AllocError>
    ensures { IfOk result (λ answer. IsTrue answer ↔ (number / 2 ≡ 0)) }
{
    let both = Then {
        first: Halve,
        second: TestZero,
    };
    both.run(alloc, number)
}

#[test]
fn passes_go_through(rt: HostRuntime) -> Result<(), Fail> {
    assert!(rt; is_half_zero(rt.alloc(), 1)?);
    assert!(rt; !is_half_zero(rt.alloc(), 2)?);
    Ok(())
}

/// A machine that can only jump.
#[derive(Drop)]
struct Goto {
    block: u32,
}

impl Insn for Goto {
    ghost use Rattle.std.specs.Prelude.{◌≡◌, ◌<◌, ℕ, [], ◌∷◌, false, refl};
    ghost use Rattle.std.proofs.Common.{arith, ap, sym};
    ghost use Rattle.std.proofs.lemmas.Option.{slice_get_within, get_or_from_slice_get};

    ghost reads = { λ _. [] };

    ghost writes = { λ _. [] };

    ghost targets = { λ i. i.block ∷ [] };

    ghost with_target = { λ i k block. record { block = block } };

    ghost jump_to = { λ block. record { block = block } };

    ghost flows_on = { λ _. false };

    ghost traps = { λ _. false };

    ghost lawful = { record {
      one_target = λ i. Prim.omega arith;
      sets_target = λ i k block within. let first : k ≡ 0 = Prim.omega arith in Prim.rw first refl;
      keeps_reads = λ i k block. refl;
      keeps_writes = λ i k block. refl;
      keeps_flow = λ i k block. refl;
      keeps_traps = λ i k block. refl;
      sets_again = λ i k block other. refl;
      sets_same = λ i k block same.
          let within = slice_get_within (i.block ∷ []) k block same in
          let first : k ≡ 0 = Prim.omega arith in
          let read = Prim.rw first at same in
          let is : i.block ≡ block = Prim.cc in
          Prim.rw is refl;
      sets_apart = λ i j k block other apart low high. absurd (Prim.omega arith);
      jump_targets = λ block. refl;
      jump_reads = λ block. refl;
      jump_writes = λ block. refl;
      jump_stops = λ block. refl;
      jump_traps = λ block. refl;
      only_jumps = λ i block others stops targets. let is : i.block ≡ block = Prim.cc in Prim.rw is refl;
    } };

    fn read_at(&self, _k: u32) -> Option<u32> {
        None
    }

    fn write_at(&self, _k: u32) -> Option<u32> {
        None
    }

    fn target_at(&self, k: u32) -> Option<u32> {
        if k == 0 { Some(self.block) } else { None }
    }

    fn set_target(&mut self, _k: u32, block: u32) {
        self.block = block;
    }

    fn jump(_alloc: Global, block: u32) -> Goto {
        Goto { block }
    }

    fn goes_on(&self) -> bool {
        false
    }

    fn may_trap(&self) -> bool {
        false
    }
}

/// Makes the first target of an instruction another block, and answers what that reads first.
fn redirect<I: Insn>(mut insn: I, block: u32) -> (I, Option<u32>)
    requires { 0 < length (I.targets insn) }
{
    insn.set_target(0, block);
    let register = insn.read_at(0);
    (insn, register)
}

#[test]
fn a_target_is_set(rt: HostRuntime) {
    let jump: Goto = Insn::jump(rt.alloc(), 3);
    let (moved, register) = redirect(jump, 5);
    assert_eq!(rt; moved.target_at(0), Some(5));
    assert_eq!(rt; moved.target_at(1), None);
    assert_eq!(rt; register, None);
    assert_eq!(rt; moved.write_at(0), None);
    assert!(rt; !moved.goes_on());
    assert!(rt; !moved.may_trap());
}
