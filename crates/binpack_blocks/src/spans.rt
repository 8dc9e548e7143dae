//! How long free registers stay free, and which of them is best for a temporary.

ghost use Rattle.std.specs.Prelude.{◌≡◌, ◌<◌, ◌&&◌, ◌||◌, not, true, length, All, option_map, IfSome, if◌then◌else◌};
ghost use Rattle.alloc_model.specs.Faithful.{given_registers};
ghost use Rattle.alloc_rules.specs.Visits as visits;
ghost use Rattle.binpack_blocks.specs.model.Bins.{held_in};
ghost use Rattle.binpack_blocks.specs.model.Choices as choices;
ghost use Rattle.binpack_blocks.specs.model.Rows.{is_wanted};
ghost use Rattle.binpack_blocks.specs.model.Spans as spans;
ghost use Rattle.binpack_blocks.specs.model.Bests as bests;
ghost use Rattle.binpack_blocks.specs.model.Wanted.{LifetimesRise};

use crate::bins::Scan;
use crate::wanted::next_presence;
use alloc_rules::scan::Lifetimes;
use temp_ir::insn::TempInsn;

/// A free register, with the point at which its span ends, if it does.
#[derive(Clone, Copy, Debug, PartialEq, Eq)]
pub(crate) struct FreeRegister {
    pub(crate) register: u8,
    pub(crate) end: Option<u32>,
}

/// The registers in the order in which they are given: 1 to 8, 22 to 25, 0, 16 to 21, 9 to 15.
fn stated_registers() -> &'static [u8]
    ensures { result.now ≡ given_registers }
{
    &[
        1, 2, 3, 4, 5, 6, 7, 8, 22, 23, 24, 25, 0, 16, 17, 18, 19, 20, 21, 9, 10, 11, 12, 13, 14,
        15,
    ]
}

/// Whether a span that ends so reaches beyond a point.
pub(crate) fn reaches(point: u32, end: Option<u32>) -> bool
    ensures { result ≡ visits.reaches point end }
{
    match end {
        None => true,
        Some(last) => point < last,
    }
}

/// Whether a span ends before another one. One that nothing ends is longest.
pub(crate) fn is_shorter(end: Option<u32>, other: Option<u32>) -> bool
    ensures { result ≡ visits.is_shorter end other }
{
    match end {
        None => false,
        Some(first) => match other {
            None => true,
            Some(second) => first < second,
        },
    }
}

/// Whether a span is better than another one for a part that ends at a point: it is the shorter of two that reach
/// beyond that, the longer of two that do not, or the one that does.
fn is_better(point: u32, end: Option<u32>, other: Option<u32>) -> bool
    ensures { result ≡ visits.is_better point end other }
{
    if reaches(point, end) {
        !reaches(point, other) || is_shorter(end, other)
    } else {
        !reaches(point, other) && is_shorter(other, end)
    }
}

/// The better of what was found so far and one more register; the first one where neither is.
fn better(end: u32, best: Option<FreeRegister>, free: FreeRegister) -> FreeRegister
    ensures { result ≡ bests.better end best free }
{
    match best {
        None => free,
        Some(found) => {
            if is_better(end, free.end, found.end) {
                free
            } else {
                found
            }
        }
    }
}

/// The nearer of two points, where there are any.
fn nearer(point: Option<u32>, other: Option<u32>) -> Option<u32>
    ensures { result ≡ spans.nearer point other }
{
    match point {
        None => other,
        Some(first) => match other {
            None => Some(first),
            Some(second) => {
                if second < first {
                    Some(second)
                } else {
                    Some(first)
                }
            }
        },
    }
}

impl Scan {
    /// The first point behind another one at which what stands in a register is present again, if there is one.
    fn holder_presence(&self, r: u8, lives: &Lifetimes, point: u32) -> Option<u32>
        requires given { r < 26 }
        requires parts { length lives.now.parts ≡ self.now.temps }
        requires rise { LifetimesRise lives.now }
        ensures { result ≡ spans.holder_presence lives.now point (held_in self.now.bins.items r) }
    {
        match self.holder(r) {
            None => None,
            Some(held) => next_presence(lives, held.temp, point),
        }
    }

    /// Where the span of a free register ends, if it does: at the next fixed use of it, or where what stands there is
    /// present again.
    fn span_end(&self, r: u8, lives: &Lifetimes, point: u32) -> Option<u32>
        requires given { r < 26 }
        requires parts { length lives.now.parts ≡ self.now.temps }
        requires rise { LifetimesRise lives.now }
        ensures { result ≡ spans.span_end self.now.fixed lives.now point self.now.bins.items r }
    {
        nearer(self.fixed.next(r), self.holder_presence(r, lives, point))
    }

    /// What was found so far for a part that ends at a point, with one more register that may be free or not.
    fn weigh(
        &self,
        best: Option<FreeRegister>,
        r: u8,
        end: u32,
        insn: &TempInsn,
        lives: &Lifetimes,
        point: u32,
        standing: &[bool],
    ) -> Option<FreeRegister>
        requires given { r < 26 }
        requires standing { length standing.now ≡ 32 }
        requires parts { length lives.now.parts ≡ self.now.temps }
        requires rise { LifetimesRise lives.now }
        ensures { result ≡ bests.weighed end
            (spans.span_end self.now.fixed lives.now point self.now.bins.items)
            (choices.is_free insn.now standing.now (is_wanted lives.now point) self.now.bins.items) best r }
    {
        if self.is_free(r, insn, lives, point, standing) {
            let free = FreeRegister {
                register: r,
                end: self.span_end(r, lives, point),
            };
            Some(better(end, best, free))
        } else {
            best
        }
    }

    /// The best of the free ones of some registers for a part that ends at a point.
    #[tactic(auto, using(crate::proofs::Bests::here_given, crate::proofs::Bests::next_weighed, crate::proofs::Bests::all_weighed))]
    fn best_of_these(
        &self,
        registers: &[u8],
        end: u32,
        insn: &TempInsn,
        lives: &Lifetimes,
        point: u32,
        standing: &[bool],
    ) -> Option<FreeRegister>
        requires given { All (λ r. r < 26) registers.now }
        requires standing { length standing.now ≡ 32 }
        requires parts { length lives.now.parts ≡ self.now.temps }
        requires rise { LifetimesRise lives.now }
        ensures { result ≡ bests.best_from end
            (spans.span_end self.now.fixed lives.now point self.now.bins.items)
            (choices.is_free insn.now standing.now (is_wanted lives.now point) self.now.bins.items) None registers.now }
    {
        let mut best = None;
        for r in registers {
            best = self.weigh(best, *r, end, insn, lives, point, standing);
        }
        best
    }

    /// The free register that is best for a part that ends at a point, if one is free.
    pub(crate) fn best_free(
        &self,
        end: u32,
        insn: &TempInsn,
        lives: &Lifetimes,
        point: u32,
        standing: &[bool],
    ) -> Option<FreeRegister>
        requires standing { length standing.now ≡ 32 }
        requires parts { length lives.now.parts ≡ self.now.temps }
        requires rise { LifetimesRise lives.now }
        ensures best { result ≡ option_map
            (bests.free_register (spans.span_end self.now.fixed lives.now point self.now.bins.items))
            (bests.best_register end
            (spans.span_end self.now.fixed lives.now point self.now.bins.items)
            (choices.is_free insn.now standing.now (is_wanted lives.now point) self.now.bins.items) given_registers) }
        ensures given { IfSome result (λ f. f.register < 26) }
        ensures free { IfSome result (λ f.
            choices.is_free insn.now standing.now (is_wanted lives.now point) self.now.bins.items f.register ≡ true) }
    {
        self.best_of_these(stated_registers(), end, insn, lives, point, standing)
    }
}
