//! Sums, differences, products, quotients and remainders (C99 6.5.3.3, 6.5.5 and 6.5.6) of operands
//! that were converted to one type.
//!
//! Unsigned results are taken modulo 2^width. A signed result that is no value of the type is a trap.

ghost use Rattle.std.specs.Prelude.{◌≡◌, IsTrue, ◌+ℤ◌, ◌-ℤ◌, ◌*ℤ◌, neg_ℤ, int_div, int_rem};
ghost use Rattle.std.specs.Int.{w64, IsNonZero};
ghost use Rattle.bk_arithmetic.specs.IntegerTypes.{is_signed};
ghost use Rattle.bk_arithmetic.specs.Operations.{word_or_overflow, sum, difference, product, negation, quotient, checked_remainder, remainder};

use crate::integer_type::IntegerType;
use crate::outcome::{ArithmeticOutcome, DIVISION_BY_ZERO, OVERFLOW};

impl IntegerType {
    /// A result that has to be a value of the type.
    fn word_or_overflow(self, number: i64) -> ArithmeticOutcome
        ensures { result ≡ word_or_overflow self number }
    {
        if self.fits(number) {
            ArithmeticOutcome::Word(self.extend(number.cast_unsigned()))
        } else {
            ArithmeticOutcome::Trap(OVERFLOW)
        }
    }

    /// `a + b`.
    pub fn add(self, a: u64, b: u64) -> ArithmeticOutcome
        ensures { result ≡ sum self a b }
    {
        if self.is_signed() {
            match self.signed_bits(a).checked_add(self.signed_bits(b)) {
                Some(number) => self.word_or_overflow(number),
                None => ArithmeticOutcome::Trap(OVERFLOW),
            }
        } else {
            ArithmeticOutcome::Word(self.extend(self.low_bits(a).wrapping_add(self.low_bits(b))))
        }
    }

    /// `a - b`.
    pub fn subtract(self, a: u64, b: u64) -> ArithmeticOutcome
        ensures { result ≡ difference self a b }
    {
        if self.is_signed() {
            match self.signed_bits(a).checked_sub(self.signed_bits(b)) {
                Some(number) => self.word_or_overflow(number),
                None => ArithmeticOutcome::Trap(OVERFLOW),
            }
        } else {
            ArithmeticOutcome::Word(self.extend(self.low_bits(a).wrapping_sub(self.low_bits(b))))
        }
    }

    /// `a * b`.
    pub fn multiply(self, a: u64, b: u64) -> ArithmeticOutcome
        ensures { result ≡ product self a b }
    {
        if self.is_signed() {
            match self.signed_bits(a).checked_mul(self.signed_bits(b)) {
                Some(number) => self.word_or_overflow(number),
                None => ArithmeticOutcome::Trap(OVERFLOW),
            }
        } else {
            ArithmeticOutcome::Word(self.extend(self.low_bits(a).wrapping_mul(self.low_bits(b))))
        }
    }

    /// `-a`.
    pub fn negate(self, a: u64) -> ArithmeticOutcome
        ensures { result ≡ negation self a }
    {
        if self.is_signed() {
            match self.signed_bits(a).checked_neg() {
                Some(number) => self.word_or_overflow(number),
                None => ArithmeticOutcome::Trap(OVERFLOW),
            }
        } else {
            ArithmeticOutcome::Word(self.extend(0u64.wrapping_sub(self.low_bits(a))))
        }
    }

    /// `a / b`, rounded toward zero. It traps where `b` is zero, and where `a` is the least value and
    /// `b` is -1.
    pub fn divide(self, a: u64, b: u64) -> ArithmeticOutcome
        ensures { result ≡ quotient self a b }
    {
        if self.low_bits(b) == 0 {
            return ArithmeticOutcome::Trap(DIVISION_BY_ZERO);
        }
        if self.is_signed() {
            match self.signed_bits(a).checked_div(self.signed_bits(b)) {
                Some(number) => self.word_or_overflow(number),
                None => ArithmeticOutcome::Trap(OVERFLOW),
            }
        } else {
            ArithmeticOutcome::Word(self.extend(self.low_bits(a) / self.low_bits(b)))
        }
    }

    /// The remainder of values of a signed type, of which the second is not zero.
    fn signed_remainder(self, a: i64, b: i64) -> ArithmeticOutcome
        requires divisor { IsNonZero w64 b }
        requires signed { IsTrue (is_signed self) }
        ensures { result ≡ checked_remainder self a b }
    {
        match a.checked_div(b) {
            Some(number) => if self.fits(number) {
                ArithmeticOutcome::Word(self.extend(a.wrapping_rem(b).cast_unsigned()))
            } else {
                ArithmeticOutcome::Trap(OVERFLOW)
            },
            None => ArithmeticOutcome::Trap(OVERFLOW),
        }
    }

    /// `a % b`, with the sign of `a`. It traps where `a / b` does.
    pub fn remainder(self, a: u64, b: u64) -> ArithmeticOutcome
        ensures { result ≡ remainder self a b }
    {
        if self.low_bits(b) == 0 {
            return ArithmeticOutcome::Trap(DIVISION_BY_ZERO);
        }
        if self.is_signed() {
            self.signed_remainder(self.signed_bits(a), self.signed_bits(b))
        } else {
            ArithmeticOutcome::Word(self.extend(self.low_bits(a) % self.low_bits(b)))
        }
    }
}
