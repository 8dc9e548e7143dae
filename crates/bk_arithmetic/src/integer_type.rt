//! The integer types of C, and how a word of 64 bits holds a value of each.

ghost use Rattle.std.specs.Prelude.{◌≡◌, ◌%◌, ◌^◌, ◌*◌, pos, if◌then◌else◌, IfSome};
ghost use Rattle.std.specs.Int.{cast_signed};
ghost use mir.Val.{bits};
ghost use Rattle.bk_arithmetic.specs.IntegerTypes.{width, is_signed, bytes, greatest, fits, integer_type};
ghost use Rattle.bk_arithmetic.specs.Words.{low_bits, signed_bits, extension, is_word};

/// The integer types (C99 6.2.5). `char` is signed; `short` has 2 bytes, `int` 4 and `long` 8.
#[derive(Clone, Copy, Debug, PartialEq, Eq, Drop)]
pub enum IntegerType {
    Char,
    UnsignedChar,
    Short,
    UnsignedShort,
    Int,
    UnsignedInt,
    Long,
    UnsignedLong,
}

impl IntegerType {
    /// The type with so many bytes (1, 2, 4 or 8) and this sign; there is none with another number of bytes.
    pub fn from_parts(bytes: u8, signed: bool) -> Option<IntegerType>
        ensures { result ≡ integer_type bytes signed }
    {
        match (bytes, signed) {
            (1, true) => Some(IntegerType::Char),
            (1, false) => Some(IntegerType::UnsignedChar),
            (2, true) => Some(IntegerType::Short),
            (2, false) => Some(IntegerType::UnsignedShort),
            (4, true) => Some(IntegerType::Int),
            (4, false) => Some(IntegerType::UnsignedInt),
            (8, true) => Some(IntegerType::Long),
            (8, false) => Some(IntegerType::UnsignedLong),
            _ => None,
        }
    }

    /// The size in bytes.
    pub fn bytes(self) -> u8
        ensures { result ≡ bytes self }
    {
        match self {
            IntegerType::Char | IntegerType::UnsignedChar => 1,
            IntegerType::Short | IntegerType::UnsignedShort => 2,
            IntegerType::Int | IntegerType::UnsignedInt => 4,
            IntegerType::Long | IntegerType::UnsignedLong => 8,
        }
    }

    /// The width in bits.
    pub fn width(self) -> u8
        ensures { result ≡ bits (width self) }
    {
        8 * self.bytes()
    }

    /// Whether the type has negative values.
    pub fn is_signed(self) -> bool
        ensures { result ≡ is_signed self }
    {
        match self {
            IntegerType::Char | IntegerType::Short | IntegerType::Int | IntegerType::Long => true,
            IntegerType::UnsignedChar
            | IntegerType::UnsignedShort
            | IntegerType::UnsignedInt
            | IntegerType::UnsignedLong => false,
        }
    }

    /// The greatest value.
    pub fn greatest(self) -> u64
        ensures { pos result ≡ greatest self }
    {
        match self {
            IntegerType::Char => i8::MAX as u64,
            IntegerType::UnsignedChar => u64::from(u8::MAX),
            IntegerType::Short => i16::MAX as u64,
            IntegerType::UnsignedShort => u64::from(u16::MAX),
            IntegerType::Int => i32::MAX as u64,
            IntegerType::UnsignedInt => u64::from(u32::MAX),
            IntegerType::Long => i64::MAX as u64,
            IntegerType::UnsignedLong => u64::MAX,
        }
    }

    /// Whether a number is a value of the type.
    pub fn fits(self, number: i64) -> bool
        ensures { result ≡ fits self number }
    {
        match self {
            IntegerType::Char => i64::from(i8::MIN) <= number && number <= i64::from(i8::MAX),
            IntegerType::UnsignedChar => 0 <= number && number <= i64::from(u8::MAX),
            IntegerType::Short => i64::from(i16::MIN) <= number && number <= i64::from(i16::MAX),
            IntegerType::UnsignedShort => 0 <= number && number <= i64::from(u16::MAX),
            IntegerType::Int => i64::from(i32::MIN) <= number && number <= i64::from(i32::MAX),
            IntegerType::UnsignedInt => 0 <= number && number <= i64::from(u32::MAX),
            IntegerType::Long => true,
            IntegerType::UnsignedLong => 0 <= number,
        }
    }

    /// The low bits of a word, as an unsigned number.
    pub(crate) fn low_bits(self, word: u64) -> u64
        ensures { result ≡ low_bits self word }
    {
        match self {
            IntegerType::Char | IntegerType::UnsignedChar => word & 0xff,
            IntegerType::Short | IntegerType::UnsignedShort => word & 0xffff,
            IntegerType::Int | IntegerType::UnsignedInt => word & 0xffff_ffff,
            IntegerType::Long | IntegerType::UnsignedLong => word,
        }
    }

    /// The low bits of a word, as a number in two's complement.
    pub(crate) fn signed_bits(self, word: u64) -> i64
        ensures { result ≡ signed_bits self word }
    {
        match self {
            IntegerType::Char | IntegerType::UnsignedChar => i64::from(
                ((word & 0xff) as u8).cast_signed(),
            ),
            IntegerType::Short | IntegerType::UnsignedShort => i64::from(
                ((word & 0xffff) as u16).cast_signed(),
            ),
            IntegerType::Int | IntegerType::UnsignedInt => i64::from(
                ((word & 0xffff_ffff) as u32).cast_signed(),
            ),
            IntegerType::Long | IntegerType::UnsignedLong => word.cast_signed(),
        }
    }

    /// The word of the type with the low bits of a word: it holds what these bits stand for in the type.
    pub fn extend(self, word: u64) -> u64
        ensures { result ≡ extension self word }
    {
        match self {
            IntegerType::UnsignedChar | IntegerType::UnsignedShort => self.low_bits(word),
            IntegerType::Char | IntegerType::Short => self.signed_bits(word).cast_unsigned(),
            IntegerType::Int | IntegerType::UnsignedInt => self.signed_bits(word).cast_unsigned(),
            IntegerType::Long | IntegerType::UnsignedLong => word,
        }
    }

    /// Whether a word is as the type holds its values.
    pub fn is_word(self, word: u64) -> bool
        ensures { result ≡ is_word self word }
    {
        self.extend(word) == word
    }
}
