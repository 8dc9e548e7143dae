//! Examples of the definitions, by computation, on functions that do nothing. What is due is from C99.

ghost use Rattle.std.specs.Prelude.{◌≡◌, ◌-◌, ◌^◌, ◌∷◌, [], None, Some, codes};
ghost use Rattle.bk_arithmetic.specs.declared.integer_type.IntegerType.TheVariants.{Int, UnsignedInt, Long, UnsignedLong};
ghost use Rattle.c_typing_literals.specs.Integers.{integer_literal};
ghost use Rattle.c_typing_literals.specs.Characters.{character};
ghost use Rattle.c_typing_literals.specs.Texts.{text_bytes};

/// Integer constants at the edges of their types, in the three bases and with each suffix.
pub fn integers_have_types()
    ensures zero { integer_literal (codes "0") ≡ Some (record { ty = Int; word = 0 }) }
    ensures octal { integer_literal (codes "0177") ≡ Some (record { ty = Int; word = 127 }) }
    ensures greatest_int { integer_literal (codes "2147483647") ≡ Some (record { ty = Int; word = 2147483647 }) }
    ensures past_int { integer_literal (codes "2147483648") ≡ Some (record { ty = Long; word = 2147483648 }) }
    ensures greatest_hexadecimal_int { integer_literal (codes "0x7fffffff") ≡ Some (record { ty = Int; word = 2147483647 }) }
    ensures past_hexadecimal_int { integer_literal (codes "0X80000000")
        ≡ Some (record { ty = UnsignedInt; word = 2 ^ 64 - 2 ^ 31 }) }
    ensures octal_long { integer_literal (codes "040000000000") ≡ Some (record { ty = Long; word = 2 ^ 32 }) }
    ensures greatest_long { integer_literal (codes "9223372036854775807") ≡ Some (record { ty = Long; word = 2 ^ 63 - 1 }) }
    ensures past_long { integer_literal (codes "9223372036854775808") ≡ None }
    ensures unsigned_past_long { integer_literal (codes "9223372036854775808u")
        ≡ Some (record { ty = UnsignedLong; word = 2 ^ 63 }) }
    ensures hexadecimal_past_long { integer_literal (codes "0xffffffffffffffff")
        ≡ Some (record { ty = UnsignedLong; word = 2 ^ 64 - 1 }) }
    ensures past_all { integer_literal (codes "0x10000000000000000") ≡ None }
    ensures unsigned { integer_literal (codes "1u") ≡ Some (record { ty = UnsignedInt; word = 1 }) }
    ensures past_unsigned { integer_literal (codes "4294967296U") ≡ Some (record { ty = UnsignedLong; word = 2 ^ 32 }) }
    ensures long { integer_literal (codes "1L") ≡ Some (record { ty = Long; word = 1 }) }
    ensures unsigned_long { integer_literal (codes "1lu") ≡ Some (record { ty = UnsignedLong; word = 1 }) }
{}

/// Characters, whose bytes are signed, and texts: `'a'`, `'\xff'`, `'\0'`, `"a\n\101"`, and `""`.
pub fn characters_have_values()
    ensures letter { character (39 ∷ 97 ∷ 39 ∷ []) ≡ Some 97 }
    ensures negative { character (39 ∷ 92 ∷ 120 ∷ 102 ∷ 102 ∷ 39 ∷ []) ≡ Some (2 ^ 64 - 1) }
    ensures zero { character (39 ∷ 92 ∷ 48 ∷ 39 ∷ []) ≡ Some 0 }
    ensures text { text_bytes (34 ∷ 97 ∷ 92 ∷ 110 ∷ 92 ∷ 49 ∷ 48 ∷ 49 ∷ 34 ∷ []) ≡ 97 ∷ 10 ∷ 65 ∷ [] }
    ensures empty { text_bytes (34 ∷ 34 ∷ []) ≡ [] }
{}
