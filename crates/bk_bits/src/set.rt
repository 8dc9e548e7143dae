//! The set.

ghost use Rattle.std.specs.Prelude.{◌≡◌, ◌≢◌, ◌<◌, true, false, length, replicate, slice_set, IfOk, IfSome, IfNone};
ghost use Rattle.std.specs.Bool.{OnTrue, OnFalse};
ghost use Rattle.bk_bits.specs.Sets.{has, IsUnion, IsDifference, IsNext, HasNone};

use crate::words::{is_in, next_in, put_in, take_away, take_out, take_over, unite};
use std::alloc::{AllocError, Global};
use std::marker::Model;

/// A set of numbers below a bound.
#[derive(Drop)]
pub struct BitSet {
    words: Vec<u64>,
    bound: u32,
}

impl Model for BitSet {
    ghost use Rattle.std.specs.Prelude.{Bool, List};
    ghost use Rattle.std.specs.Coded.{coded_list, coded_bool};
    ghost use Rattle.bk_bits.specs.model.Words.{members, AreWords};

    ghost Value = { List Bool };

    ghost coded = { coded_list coded_bool };

    ghost view = { λ s. members s.words.items s.bound };

    ghost invariant = { λ s. AreWords s.words.items s.bound };
}

impl BitSet {
    /// The empty set of numbers below a bound. It fails only where memory is short.
    #[tactic(auto, using(crate::proofs::Members::no_members, crate::proofs::Members::empty_words))]
    pub fn new(alloc: Global, bound: u32) -> Result<BitSet, AllocError>
        ensures { IfOk result (λ set. set ≡ replicate bound false) }
    {
        let mut words = Vec::new(alloc);
        words.resize((bound as usize + 63) / 64, 0)?;
        Ok(BitSet { words, bound })
    }

    /// Whether a number is a member.
    pub fn test(&self, k: u32) -> bool
        requires { k < length self.now }
        ensures { result ≡ has self.now k }
    {
        is_in(self.words.as_slice(), k)
    }

    /// Makes a number a member.
    pub fn insert(&mut self, k: u32)
        requires { k < length self.now }
        ensures { self.new ≡ slice_set self.old k true }
    {
        put_in(&mut self.words, k);
    }

    /// Makes a number no member.
    pub fn remove(&mut self, k: u32)
        requires { k < length self.now }
        ensures { self.new ≡ slice_set self.old k false }
    {
        take_out(&mut self.words, k);
    }

    /// Puts the members of another set in, and says whether the set changed.
    pub fn union_with(&mut self, other: &BitSet) -> bool
        requires { length other.now ≡ length self.now }
        ensures bound { length self.new ≡ length self.old }
        ensures union { IsUnion self.new self.old other.now }
        ensures same { OnFalse result (self.new ≡ self.old) }
        ensures changed { OnTrue result (self.new ≢ self.old) }
    {
        unite(&mut self.words, other.words.as_slice())
    }

    /// Takes the members of another set out.
    pub fn subtract(&mut self, other: &BitSet)
        requires { length other.now ≡ length self.now }
        ensures bound { length self.new ≡ length self.old }
        ensures difference { IsDifference self.new self.old other.now }
    {
        take_away(&mut self.words, other.words.as_slice());
    }

    /// Becomes the same set as another one.
    pub fn copy_from(&mut self, other: &BitSet)
        requires { length other.now ≡ length self.now }
        ensures { self.new ≡ other.now }
    {
        take_over(&mut self.words, other.words.as_slice());
    }

    /// The least member that is at least a number, if there is one.
    pub fn next_from(&self, k: u32) -> Option<u32>
        ensures some { IfSome result (IsNext self.now k) }
        ensures none { IfNone result (HasNone self.now k) }
    {
        next_in(self.words.as_slice(), k)
    }
}
