//! Operators on the bits of operands (C99 6.5.3.3, 6.5.7 and 6.5.10 to 6.5.12).

ghost use Rattle.std.specs.Prelude.{◌≡◌, ◌<◌};
ghost use Rattle.std.specs.Int.{int_shr};
ghost use Rattle.bk_arithmetic.specs.Words.{word, value};
ghost use Rattle.bk_arithmetic.specs.Operations.{conjunction, disjunction, exclusive_disjunction, complement, shift_count, left_shift, right_shift};

use crate::integer_type::IntegerType;
use crate::outcome::ArithmeticOutcome;

impl IntegerType {
    /// `a & b`.
    pub fn and(self, a: u64, b: u64) -> u64
        ensures { result ≡ conjunction self a b }
    {
        self.extend(a & b)
    }

    /// `a | b`.
    pub fn or(self, a: u64, b: u64) -> u64
        ensures { result ≡ disjunction self a b }
    {
        self.extend(a | b)
    }

    /// `a ^ b`.
    pub fn exclusive_or(self, a: u64, b: u64) -> u64
        ensures { result ≡ exclusive_disjunction self a b }
    {
        self.extend(a ^ b)
    }

    /// `~a`.
    pub fn complement(self, a: u64) -> u64
        ensures { result ≡ complement self a }
    {
        self.extend(!a)
    }

    /// By how many bits a value of this type is moved, where that is from 0 to the width less one.
    fn shift_count(self, count_type: IntegerType, count: u64) -> Option<u64>
        ensures { result ≡ shift_count self count_type count }
    {
        let count = count_type.extend(count);
        if count < u64::from(self.width()) {
            Some(count)
        } else {
            None
        }
    }

    /// `a << count`, where the count is a word of a type of its own. The bits that are moved out are lost.
    pub fn shift_left(self, count_type: IntegerType, a: u64, count: u64) -> ArithmeticOutcome
        ensures { result ≡ left_shift self count_type a count }
    {
        match self.shift_count(count_type, count) {
            Some(bits) => ArithmeticOutcome::Word(self.extend(a << bits)),
            None => ArithmeticOutcome::Undefined,
        }
    }

    /// `a >> count`, where the count is a word of a type of its own. The sign stays.
    pub fn shift_right(self, count_type: IntegerType, a: u64, count: u64) -> ArithmeticOutcome
        ensures { result ≡ right_shift self count_type a count }
    {
        match self.shift_count(count_type, count) {
            Some(bits) => ArithmeticOutcome::Word(self.moved_right(a, bits)),
            None => ArithmeticOutcome::Undefined,
        }
    }

    /// The word of a value moved right by fewer than 64 bits.
    fn moved_right(self, a: u64, bits: u64) -> u64
        requires { bits < 64 }
        ensures { result ≡ word self (int_shr (value self a) bits) }
    {
        if self.is_signed() {
            self.extend((self.signed_bits(a) >> bits).cast_unsigned())
        } else {
            self.extend(self.low_bits(a) >> bits)
        }
    }
}
