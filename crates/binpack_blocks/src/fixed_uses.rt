//! The fixed uses of registers, which a scan passes in linear order.

ghost use Rattle.std.specs.Prelude.{◌≡◌, ◌≢◌, ◌<◌, ◌^◌, ℕ, Some, length, nat_lt, find, flat_map, slice_get, IfOk};
ghost use Rattle.pass_core.specs.Functions.{count_of};
ghost use Rattle.binpack_blocks.specs.model.Uses.{uses_among};
ghost use Rattle.binpack_blocks.specs.model.UseRows.{points_in};

use crate::bins::GIVEN;
use crate::block::all_insns;
use crate::register_uses::RegisterUses;
use pass_core::block::Block;
use std::alloc::{AllocError, Global};
use temp_ir::insn::TempInsn;

/// For each register that can be given, the points at which instructions name it as fixed or end it, and how many of
/// them are passed. To make it takes one pass over the instructions for each register, and a scan passes each use once.
#[derive(Drop)]
pub struct FixedUses {
    rows: Vec<RegisterUses>,
    ghost many: { length rows.items ≡ 26 },
}

/// The uses of each register that can be given.
fn rows_of(alloc: Global, insns: &[TempInsn]) -> Result<Vec<RegisterUses>, AllocError>
    requires { length insns.now < 2 ^ 30 }
    ensures many { IfOk result (λ rows. length rows.items ≡ 26) }
    ensures uses { IfOk result (λ rows. (r : ℕ) → r < 26
        → points_in (slice_get rows.items r) ≡ uses_among r insns.now (length insns.now)) }
{
    let mut rows = Vec::new(alloc);
    for r in 0..GIVEN {
        let uses = RegisterUses::of(alloc, insns, r)?;
        rows.push(uses)?;
    }
    Ok(rows)
}

impl FixedUses {
    ghost use Rattle.binpack_blocks.specs.model.NextUses.{next_use, uses_of};

    /// The uses in the blocks of a function, of which none is passed.
    pub fn of(alloc: Global, blocks: &[Block<TempInsn>]) -> Result<FixedUses, AllocError>
        requires { count_of blocks.now < 2 ^ 30 }
        ensures { IfOk result (λ uses. (r : ℕ) → r < 26
            → uses_of uses r ≡ uses_among r (flat_map (λ insns. insns) blocks.now) (count_of blocks.now)) }
    {
        let insns = all_insns(alloc, blocks)?;
        let rows = rows_of(alloc, insns.as_slice())?;
        Ok(FixedUses { rows })
    }

    /// The uses of a register.
    fn row(&self, r: u8) -> &RegisterUses
        requires { r < 26 }
        ensures { slice_get self.now.rows.items r ≡ Some result.now }
    {
        &self.rows[r as usize]
    }

    /// The first use of a register that is not passed, if there is one.
    #[tactic(auto, using(crate::proofs::Uses::next_is))]
    pub(crate) fn next(&self, r: u8) -> Option<u32>
        requires { r < 26 }
        ensures { result ≡ next_use self.now r }
    {
        self.row(r).next()
    }

    /// Passes the uses of a register up to a point.
    fn pass_one(&mut self, r: u8, point: u32)
        requires { r < 26 }
        ensures next { next_use self.new r ≡ find (λ p. nat_lt point p) (uses_of self.old r) }
        ensures others { (q : ℕ) → q ≢ r → next_use self.new q ≡ next_use self.old q }
        ensures uses { (q : ℕ) → uses_of self.new q ≡ uses_of self.old q }
    {
        self.rows[r as usize].pass(point);
    }

    /// Passes the uses up to a point, so that the next one of each register is the first behind that.
    pub(crate) fn pass(&mut self, point: u32)
        ensures next { (r : ℕ) → r < 26 → next_use self.new r ≡ find (λ p. nat_lt point p) (uses_of self.old r) }
        ensures uses { (r : ℕ) → uses_of self.new r ≡ uses_of self.old r }
    {
        for r in 0..GIVEN {
            self.pass_one(r, point);
        }
    }
}
