//! Comparisons of operands that were converted to one type (C99 6.5.8 and 6.5.9).

ghost use Rattle.std.specs.Prelude.{◌≡◌, not};
ghost use Rattle.bk_arithmetic.specs.Operations.{is_less, is_less_or_equal, is_equal, truth};

use crate::integer_type::IntegerType;

impl IntegerType {
    /// `a < b`.
    pub fn is_less(self, a: u64, b: u64) -> bool
        ensures { result ≡ is_less self a b }
    {
        if self.is_signed() {
            self.signed_bits(a) < self.signed_bits(b)
        } else {
            self.low_bits(a) < self.low_bits(b)
        }
    }

    /// `a <= b`.
    pub fn is_less_or_equal(self, a: u64, b: u64) -> bool
        ensures { result ≡ is_less_or_equal self a b }
    {
        if self.is_signed() {
            self.signed_bits(a) <= self.signed_bits(b)
        } else {
            self.low_bits(a) <= self.low_bits(b)
        }
    }

    /// `a == b`; of `a != b` it is the opposite.
    pub fn is_equal(self, a: u64, b: u64) -> bool
        ensures { result ≡ is_equal self a b }
    {
        self.low_bits(a) == self.low_bits(b)
    }
}

/// The value of a comparison, as an `int`.
pub fn truth(holds: bool) -> u64
    ensures { result ≡ truth holds }
{
    u64::from(holds)
}
