//! Where instructions name one register as fixed or end it, in linear order.

ghost use Rattle.std.specs.Prelude.{◌≡◌, ◌+◌, ◌*◌, ◌++◌, ◌<◌, ◌^◌, [], ◌∷◌, Some, length, nat_lt, find, slice_get, if◌then◌else◌, IfOk, OnOk};
ghost use Rattle.alloc_rules.specs.Visits as visits;
ghost use Rattle.binpack_blocks.specs.model.Uses.{ArePassed, uses_among};

use crate::registers::fixes;
use crate::standing::insn_at;
use bk_containers::Seq;
use std::alloc::{AllocError, Global};
use temp_ir::insn::TempInsn;

/// The points at which instructions name a register as fixed or end it, and how many of them are passed.
#[derive(Drop)]
pub(crate) struct RegisterUses {
    /// The points, in linear order.
    pub(crate) points: Seq<u32>,
    /// How many of them are passed.
    pub(crate) passed: usize,
    /// A point that none of those is behind.
    pub(crate) reached: u32,
    pub(crate) ghost behind: { ArePassed points passed reached },
}

/// The point at a place.
fn point_at(points: &[u32], place: usize) -> u32
    requires { place < length points.now }
    ensures { slice_get points.now place ≡ Some result }
{
    points[place]
}

/// How many points are passed up to the first one behind another point, where so many are known to be.
#[tactic(auto, using(crate::proofs::Uses::passed_more, crate::proofs::Uses::all_passed))]
fn count_passed(points: &[u32], known: usize, point: u32) -> usize
    requires { ArePassed points.now known point }
    ensures passed { ArePassed points.now result point }
    ensures next { slice_get points.now result ≡ find (λ p. nat_lt point p) points.now }
{
    for place in known..points.len() {
        if point_at(points, place) > point {
            return place;
        }
    }
    points.len()
}

/// Puts a point behind the uses of a register, if an instruction names it as fixed or ends it.
fn note(points: &mut Seq<u32>, insn: &TempInsn, r: u8, point: u32) -> Result<(), AllocError>
    ensures { OnOk result (points.new
        ≡ (if visits.fixes insn.now r then points.old ++ point ∷ [] else points.old)) }
{
    if fixes(insn, r) {
        points.push(point)?;
        Ok(())
    } else {
        Ok(())
    }
}

/// The points at which instructions, counted from the first one, name a register as fixed or end it.
#[tactic(auto, using(crate::proofs::Uses::uses_next, crate::proofs::Uses::uses_done))]
fn points_of(alloc: Global, insns: &[TempInsn], r: u8) -> Result<Seq<u32>, AllocError>
    requires { length insns.now < 2 ^ 30 }
    ensures { IfOk result (λ points. points ≡ uses_among r insns.now (length insns.now)) }
{
    let mut points = Seq::new(alloc);
    for place in 0..insns.len() {
        let insn = insn_at(insns, place);
        note(&mut points, &insn, r, 2 * place as u32)?;
    }
    Ok(points)
}

impl RegisterUses {
    /// The uses of a register by instructions, of which none is passed.
    #[tactic(auto, using(crate::proofs::Uses::none_passed))]
    pub(crate) fn of(alloc: Global, insns: &[TempInsn], r: u8) -> Result<RegisterUses, AllocError>
        requires { length insns.now < 2 ^ 30 }
        ensures { IfOk result (λ uses. uses.points ≡ uses_among r insns.now (length insns.now)) }
    {
        let points = points_of(alloc, insns, r)?;
        Ok(RegisterUses {
            points,
            passed: 0,
            reached: 0,
        })
    }

    /// The first use that is not passed, if there is one.
    pub(crate) fn next(&self) -> Option<u32>
        ensures { result ≡ slice_get self.now.points self.now.passed }
    {
        self.points.as_slice().get(self.passed).copied()
    }

    /// How many uses are known to be passed at a point: none of them where it is before one that was reached.
    #[tactic(auto, using(crate::proofs::Uses::passed_later, crate::proofs::Uses::none_passed))]
    fn known(&self, point: u32) -> usize
        ensures { ArePassed self.now.points result point }
    {
        if self.reached <= point {
            self.passed
        } else {
            0
        }
    }

    /// Passes the uses up to a point.
    pub(crate) fn pass(&mut self, point: u32)
        ensures next { slice_get self.new.points self.new.passed ≡ find (λ p. nat_lt point p) self.old.points }
        ensures points { self.new.points ≡ self.old.points }
    {
        let known = self.known(point);
        self.passed = count_passed(self.points.as_slice(), known, point);
        self.reached = point;
    }
}
