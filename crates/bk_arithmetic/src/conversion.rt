//! Conversions between integer types.

ghost use Rattle.std.specs.Prelude.{◌≡◌};
ghost use Rattle.bk_arithmetic.specs.IntegerTypes.{promote, common};
ghost use Rattle.bk_arithmetic.specs.Operations.{conversion};

use crate::integer_type::IntegerType;

impl IntegerType {
    /// The type after the integer promotions (C99 6.3.1.1).
    pub fn promote(self) -> IntegerType
        ensures { result ≡ promote self }
    {
        match self {
            IntegerType::Char
            | IntegerType::UnsignedChar
            | IntegerType::Short
            | IntegerType::UnsignedShort
            | IntegerType::Int => IntegerType::Int,
            IntegerType::UnsignedInt => IntegerType::UnsignedInt,
            IntegerType::Long => IntegerType::Long,
            IntegerType::UnsignedLong => IntegerType::UnsignedLong,
        }
    }

    /// The type of both operands after the usual arithmetic conversions (C99 6.3.1.8): the longer one
    /// after the promotions, and of two of one length the unsigned one.
    pub fn common(self, other: IntegerType) -> IntegerType
        ensures { result ≡ common self other }
    {
        match (self.promote(), other.promote()) {
            (IntegerType::UnsignedLong, _) | (_, IntegerType::UnsignedLong) =>
                IntegerType::UnsignedLong,
            (IntegerType::Long, _) | (_, IntegerType::Long) => IntegerType::Long,
            (IntegerType::UnsignedInt, _) | (_, IntegerType::UnsignedInt) =>
                IntegerType::UnsignedInt,
            _ => IntegerType::Int,
        }
    }

    /// The word that holds in the type `to` what a word has in this type (C99 6.3.1.3). A narrower type
    /// gets the low bits.
    pub fn convert(self, to: IntegerType, word: u64) -> u64
        ensures { result ≡ conversion self to word }
    {
        if self.is_signed() {
            to.extend(self.signed_bits(word).cast_unsigned())
        } else {
            to.extend(self.low_bits(word))
        }
    }
}
