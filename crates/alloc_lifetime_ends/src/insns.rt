//! Last points are raised to those of references.

ghost use Rattle.std.specs.Prelude.{◌≡◌, ◌+◌, ◌*◌, ◌<◌, ◌≤◌, ◌^◌, true, max, All, Some, IfSome, length};
ghost use Rattle.pass_core.specs.Functions.{UsesRegisters};
ghost use Rattle.temp_ir.specs.Insns.{reads_of, writes_of};
ghost use Rattle.bk_bits.specs.Sets.{has};
ghost use Rattle.alloc_lifetime_ends.specs.model.Raised.{IsOfInsn, IsOfInsns, IsBehind, IsOfBlock, IsRaised};

use bk_bits::BitSet;
use pass_core::Insn;
use pass_core::block::Block;
use temp_ir::insn::TempInsn;

/// The larger one of two points.
fn larger(first: u32, second: u32) -> u32
    ensures { result ≡ max first second }
{
    if first < second { second } else { first }
}

/// Raises the last point of a temporary to a point.
fn raise(ends: &mut [u32], temp: u32, point: u32)
    requires { temp < length ends.now }
    ensures { IsRaised (λ t p. (t ≡ temp) × (p ≡ point)) ends.old ends.new }
{
    let place = temp as usize;
    ends[place] = larger(ends[place], point);
}

/// Raises the last point of a temporary, if there is one.
fn raise_named(ends: &mut [u32], temp: Option<u32>, point: u32)
    requires { IfSome temp (λ t. t < length ends.now) }
    ensures { IsRaised (λ t p. (temp ≡ Some t) × (p ≡ point)) ends.old ends.new }
{
    match temp {
        None => {}
        Some(found) => raise(ends, found, point),
    }
}

/// Raises the last points of what an instruction with a number reads and writes.
fn raise_insn(ends: &mut [u32], insn: &TempInsn, number: u32)
    requires few { number < 2 ^ 30 }
    requires inside { UsesRegisters reads_of writes_of (length ends.now) insn.now }
    ensures { IsRaised (IsOfInsn number insn.now) ends.old ends.new }
{
    raise_named(ends, insn.read_at(0), 2 * number);
    raise_named(ends, insn.read_at(1), 2 * number);
    raise_named(ends, insn.write_at(0), 2 * number + 1);
}

/// Raises the last points of what the instructions of a block read and write, and gives the number behind them.
fn raise_insns(ends: &mut [u32], block: &Block<TempInsn>, number: u32) -> u32
    requires few { number + length block.now < 2 ^ 30 }
    requires inside { All (UsesRegisters reads_of writes_of (length ends.now)) block.now }
    ensures raised { IsRaised (IsOfInsns number block.now) ends.old ends.new }
    ensures next { result ≡ number + length block.now }
{
    let mut next = number;
    for line in block.insns.iter() {
        let (_id, insn) = line;
        raise_insn(ends, insn, next);
        next += 1;
    }
    next
}

/// Raises the last points of the members of a set to a point.
#[tactic(auto, using(crate::proofs::Raising::set_begins, crate::proofs::Raising::set_next, crate::proofs::Raising::set_done, crate::proofs::Raising::next_inside))]
fn raise_set(ends: &mut [u32], set: &BitSet, point: u32)
    requires bound { length set.now ≤ length ends.now }
    requires few { length ends.now < 2 ^ 32 }
    ensures { IsRaised (λ t p. (has set.now t ≡ true) × (p ≡ point)) ends.old ends.new }
{
    let mut from = 0;
    while let Some(temp) = set.next_from(from) {
        raise(ends, temp, point);
        from = temp + 1;
    }
}

/// Raises the last points of what is live behind instructions with numbers from one on to below another, if there are
/// any.
#[tactic(auto, using(crate::proofs::Raising::bottom_raised, crate::proofs::Raising::bottom_same))]
fn raise_bottom(ends: &mut [u32], bottom: &BitSet, number: u32, next: u32)
    requires few { next < 2 ^ 30 }
    requires bottom { length bottom.now ≤ length ends.now }
    requires few_ends { length ends.now < 2 ^ 32 }
    ensures { IsRaised (IsBehind number next bottom.now) ends.old ends.new }
{
    if number < next {
        raise_set(ends, bottom, 2 * next - 1);
    }
}

/// Raises the last points of what a block reads and writes, and of what is live at its bottom where it has an
/// instruction, and gives the number behind it.
#[tactic(auto, using(crate::proofs::Raising::block_raised))]
pub(crate) fn raise_block(
    ends: &mut [u32],
    block: &Block<TempInsn>,
    bottom: &BitSet,
    number: u32,
) -> u32
    requires few { number + length block.now < 2 ^ 30 }
    requires inside { All (UsesRegisters reads_of writes_of (length ends.now)) block.now }
    requires bottom { length bottom.now ≤ length ends.now }
    requires few_ends { length ends.now < 2 ^ 32 }
    ensures raised { IsRaised (IsOfBlock number block.now bottom.now) ends.old ends.new }
    ensures next { result ≡ number + length block.now }
{
    let next = raise_insns(ends, block, number);
    raise_bottom(ends, bottom, number, next);
    next
}
