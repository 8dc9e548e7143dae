//! The values of integer constants where they are wanted.

ghost use Rattle.std.specs.Prelude.{◌≡◌};
ghost use Rattle.c_typing_constants.specs.c_constant_rules.Values as spec;
ghost use Rattle.c_typing_rules.specs.Rulings.{RuleGives};

use crate::constant;
use bk_arithmetic::integer_type::IntegerType;
use bk_arithmetic::outcome::ArithmeticOutcome;
use c_typed_tree::layout::integer_of;
use c_typing_faults::Kind;
use c_typing_rules::{Refusal, TypedExpression, refuse};

/// A number that is 0 where it is below 0.
fn natural(t: IntegerType, word: u64) -> u64
    ensures { result ≡ spec.natural t word }
{
    if t.is_less(word, 0) {
        return 0;
    }
    t.convert(IntegerType::UnsignedLong, word)
}

/// The length of an array; 0 where it is below 0.
pub fn length(a: &TypedExpression) -> Result<u64, Refusal>
    ensures { RuleGives (spec.length_value a.now) result }
{
    match integer_of(&a.ty) {
        None => Err(refuse(a.at, Kind::NotConstant)),
        Some(t) => match constant(&a.tree) {
            None => Err(refuse(a.at, Kind::NotConstant)),
            Some(word) => Ok(natural(t, word)),
        },
    }
}

fn has_same_sign(s: IntegerType, t: IntegerType, word: u64) -> bool
    ensures { result ≡ spec.has_same_sign s t word }
{
    s.is_less(word, 0) == t.is_less(s.convert(t, word), 0)
}

/// Whether a type has a number of another type too.
fn is_kept(s: IntegerType, t: IntegerType, word: u64) -> bool
    ensures { result ≡ spec.is_kept s t word }
{
    s.is_equal(t.convert(s, s.convert(t, word)), word) && has_same_sign(s, t, word)
}

fn enumeration_value(at: u32, t: IntegerType, word: u64) -> Result<u64, Refusal>
    ensures { RuleGives (spec.enumeration_value at t word) result }
{
    if is_kept(t, IntegerType::Int, word) {
        return Ok(t.convert(IntegerType::Int, word));
    }
    Err(refuse(at, Kind::NotConstant))
}

/// The value that an expression gives to an enumeration constant, as a word of the type `int`.
pub fn given_value(a: &TypedExpression) -> Result<u64, Refusal>
    ensures { RuleGives (spec.given_value a.now) result }
{
    match integer_of(&a.ty) {
        None => Err(refuse(a.at, Kind::NotConstant)),
        Some(t) => match constant(&a.tree) {
            None => Err(refuse(a.at, Kind::NotConstant)),
            Some(word) => enumeration_value(a.at, t, word),
        },
    }
}

/// The value of an enumeration constant without one, which is 1 above the one before it. `at` is the place of its name.
pub fn next_value(at: u32, before: u64) -> Result<u64, Refusal>
    ensures { RuleGives (spec.next_value at before) result }
{
    match IntegerType::Int.add(before, 1) {
        ArithmeticOutcome::Word(word) => Ok(word),
        ArithmeticOutcome::Trap(_) => Err(refuse(at, Kind::NotConstant)),
        ArithmeticOutcome::Undefined => Err(refuse(at, Kind::NotConstant)),
    }
}

/// The value of a label, converted to the promoted type of the operand of its `switch`.
pub fn label(t: IntegerType, a: &TypedExpression) -> Result<u64, Refusal>
    ensures { RuleGives (spec.label_value t a.now) result }
{
    match integer_of(&a.ty) {
        None => Err(refuse(a.at, Kind::NotConstant)),
        Some(s) => match constant(&a.tree) {
            None => Err(refuse(a.at, Kind::NotConstant)),
            Some(word) => Ok(s.convert(t, word)),
        },
    }
}
