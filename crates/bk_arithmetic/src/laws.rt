//! Laws of integers and their words that crates above rest on. Each is the contract of a function that does nothing.

ghost use Rattle.std.specs.Prelude.{◌≡◌, ℕ, ℤ, ◌+◌, ◌-◌, ◌*◌, ◌^◌, ◌<◌, ◌≤◌, ◌+ℤ◌, ◌-ℤ◌, ◌*ℤ◌, neg_ℤ, ◌==◌, nat_lt, bit_and, bit_or, bit_xor, true, false};
ghost use Rattle.bk_arithmetic.specs.declared.integer_type.IntegerType.{IntegerType};
ghost use Rattle.bk_arithmetic.specs.declared.integer_type.IntegerType.TheVariants.{Long};
ghost use Rattle.bk_arithmetic.specs.declared.outcome.ArithmeticOutcome.TheVariants.{Word};
ghost use Rattle.bk_arithmetic.specs.IntegerTypes.{bytes, is_signed, fits, promote};
ghost use Rattle.bk_arithmetic.specs.Words.{value, word, extension, is_word};
ghost use Rattle.bk_arithmetic.specs.Operations.{conversion, sum, difference, product, negation, quotient, remainder, left_shift, right_shift, conjunction, disjunction, exclusive_disjunction, is_equal, is_less};
ghost use Rattle.bk_arithmetic.specs.Outcomes.{IsWordOf};

/// A value fits its type, and each number that fits is the value of its word. A word of a type has the value
/// of the word from which it is made, and is its own word.
pub fn words_hold_values()
    ensures fit { (t : IntegerType) (n : ℕ) → fits t (value t n) ≡ true }
    ensures read { (t : IntegerType) (z : ℤ) → fits t z ≡ true → value t (word t z) ≡ z }
    ensures held { (t : IntegerType) (n : ℕ) → word t (value t n) ≡ extension t n }
    ensures value { (t : IntegerType) (n : ℕ) → value t (extension t n) ≡ value t n }
    ensures again { (t : IntegerType) (n : ℕ) → extension t (extension t n) ≡ extension t n }
    ensures below { (t : IntegerType) (n : ℕ) → extension t n < 2 ^ 64 }
{}

/// The word of a result needs no more than the words of its operands.
pub fn results_need_words()
    ensures sum { (t : IntegerType) (a b : ℕ) → word t (value t a +ℤ value t b) ≡ extension t (a + b) }
    ensures difference { (t : IntegerType) (a b : ℕ) → b < 2 ^ 64 →
        word t (value t a -ℤ value t b) ≡ extension t (a + (2 ^ 64 - b)) }
    ensures product { (t : IntegerType) (a b : ℕ) → word t (value t a *ℤ value t b) ≡ extension t (a * b) }
    ensures negation { (t : IntegerType) (a : ℕ) → a < 2 ^ 64 → word t (neg_ℤ (value t a)) ≡ extension t (2 ^ 64 - a) }
{}

/// What a conversion does. One to a type that has the value keeps it; one to a type that is no longer keeps the
/// low bits. Of two in a row the first may be left out where its type has the value, or is no shorter than the last.
pub fn conversions_keep()
    ensures same { (t : IntegerType) (n : ℕ) → conversion t t n ≡ extension t n }
    ensures narrower { (s t : IntegerType) (n : ℕ) → bytes t ≤ bytes s → conversion s t n ≡ extension t n }
    ensures value { (s t : IntegerType) (n : ℕ) → fits t (value s n) ≡ true → value t (conversion s t n) ≡ value s n }
    ensures promotion { (t : IntegerType) (n : ℕ) → value (promote t) (conversion t (promote t) n) ≡ value t n }
    ensures through_wide { (s t u : IntegerType) (n : ℕ) → bytes u ≤ bytes t →
        conversion t u (conversion s t n) ≡ conversion s u n }
    ensures through_all { (s t u : IntegerType) (n : ℕ) → fits t (value s n) ≡ true →
        conversion t u (conversion s t n) ≡ conversion s u n }
{}

/// The word of each result is one as its type holds it.
pub fn results_are_words()
    ensures sum { (t : IntegerType) (a b : ℕ) → IsWordOf t (sum t a b) }
    ensures difference { (t : IntegerType) (a b : ℕ) → IsWordOf t (difference t a b) }
    ensures product { (t : IntegerType) (a b : ℕ) → IsWordOf t (product t a b) }
    ensures negation { (t : IntegerType) (a : ℕ) → IsWordOf t (negation t a) }
    ensures quotient { (t : IntegerType) (a b : ℕ) → IsWordOf t (quotient t a b) }
    ensures remainder { (t : IntegerType) (a b : ℕ) → IsWordOf t (remainder t a b) }
    ensures left_shift { (t u : IntegerType) (a c : ℕ) → IsWordOf t (left_shift t u a c) }
    ensures right_shift { (t u : IntegerType) (a c : ℕ) → IsWordOf t (right_shift t u a c) }
    ensures word { (t : IntegerType) (n : ℕ) → is_word t (extension t n) ≡ true }
{}

/// Sums and products go in either order; and what the numbers 0 and 1 do.
pub fn results_are_simple()
    ensures sum { (t : IntegerType) (a b : ℕ) → sum t a b ≡ sum t b a }
    ensures product { (t : IntegerType) (a b : ℕ) → product t a b ≡ product t b a }
    ensures sum_zero { (t : IntegerType) (a : ℕ) → sum t a 0 ≡ Word (extension t a) }
    ensures difference_zero { (t : IntegerType) (a : ℕ) → difference t a 0 ≡ Word (extension t a) }
    ensures product_one { (t : IntegerType) (a : ℕ) → product t a 1 ≡ Word (extension t a) }
    ensures product_zero { (t : IntegerType) (a : ℕ) → product t a 0 ≡ Word 0 }
{}

/// Words of a type are equal where their values are. The word of a signed type has its value among words of
/// 8 bytes too, and words of an unsigned type have the order of their values.
pub fn words_compare()
    ensures value { (t : IntegerType) (a b : ℕ) → is_equal t a b ≡ true → value t a ≡ value t b }
    ensures equal { (t : IntegerType) (a b : ℕ) → value t a ≡ value t b → is_equal t a b ≡ true }
    ensures words { (t : IntegerType) (a b : ℕ) → is_equal t a b ≡ (extension t a == extension t b) }
    ensures long { (t : IntegerType) (n : ℕ) → is_signed t ≡ true → value Long (extension t n) ≡ value t n }
    ensures less { (t : IntegerType) (a b : ℕ) →
        is_signed t ≡ false → is_less t a b ≡ nat_lt (extension t a) (extension t b) }
{}

/// The operators on bits give words of a type where their operands are such words.
pub fn bits_of_words()
    ensures and { (t : IntegerType) (a b : ℕ) →
        conjunction t (extension t a) (extension t b) ≡ bit_and (extension t a) (extension t b) }
    ensures or { (t : IntegerType) (a b : ℕ) →
        disjunction t (extension t a) (extension t b) ≡ bit_or (extension t a) (extension t b) }
    ensures exclusive_or { (t : IntegerType) (a b : ℕ) →
        exclusive_disjunction t (extension t a) (extension t b) ≡ bit_xor (extension t a) (extension t b) }
{}
