//! The displacements that make the low 32 bits of a number.

ghost use Rattle.std.specs.Prelude.{◌≡◌, ◌==◌};
ghost use Rattle.alpha_constants.specs.Recipes as recipes;

/// The displacement of `lda`: the low 16 bits.
pub fn low_part(word: u64) -> i16
    ensures { result ≡ recipes.low_part word }
{
    ((word & 0xffff) as u16).cast_signed()
}

/// The displacement of `ldah`: the 16 bits above, and 1 where the low ones are negative.
pub fn high_part(word: u64) -> i16
    ensures { result ≡ recipes.high_part word }
{
    let upper = (word >> 16) + (word >> 15) % 2;
    ((upper & 0xffff) as u16).cast_signed()
}

/// The word that both make.
pub fn near_word(word: u64) -> u64
    ensures { result ≡ recipes.near_word word }
{
    let high = (i64::from(high_part(word)) * 65_536).cast_unsigned();
    high.wrapping_add(i64::from(low_part(word)).cast_unsigned())
}
