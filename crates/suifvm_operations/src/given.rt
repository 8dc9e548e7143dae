//! What operators on numbers do with two words, where that is a word. It is what most instructions of a run come to,
//! and needs no memory.

ghost use Rattle.std.specs.Prelude.{◌≡◌, IfSome, Some};
ghost use Rattle.mem_model.specs.Memory.{Memory};
ghost use Rattle.suifvm_meaning.specs.Operations as operations;

use crate::numbers::{binary_in, compare_in};
use bk_arithmetic::integer_type::IntegerType;
use mem_model::value::Value;
use suifvm_ir::insn::{CompareOp, VmBinaryOp};
use suifvm_ir::types::VmType;
use suifvm_meaning::answer::Answer;

/// The word that an operation gives, if it gives one.
#[inline(always)]
pub fn given_word(answer: Answer) -> Option<u64>
    ensures { IfSome result (λ word. answer ≡ Answer.Gives (Value.Word word)) }
{
    match answer {
        Answer::Gives(value) => match value {
            Value::Word(word) => Some(word),
            Value::Address(_) => None,
            Value::Unset => None,
        },
        Answer::TrapsWith(_) => None,
        Answer::Fails => None,
    }
}

/// The word that an operation on two numbers gives, if it gives one.
#[inline(always)]
pub fn binary_word(op: VmBinaryOp, ty: VmType, a: u64, b: u64) -> Option<u64>
    ensures { IfSome result (λ word. (memory : Memory) →
        operations.binary_answer memory op ty (Value.Word a) (Value.Word b) ≡ Answer.Gives (Value.Word word)) }
{
    let a = Value::Word(a);
    let b = Value::Word(b);
    match ty {
        VmType::S32 => given_word(binary_in(op, IntegerType::Int, a, b)),
        VmType::U32 => given_word(binary_in(op, IntegerType::UnsignedInt, a, b)),
        VmType::S64 => given_word(binary_in(op, IntegerType::Long, a, b)),
        VmType::U64 => given_word(binary_in(op, IntegerType::UnsignedLong, a, b)),
        VmType::P64 => None,
    }
}

/// The word that a comparison of two numbers gives, if they may be compared.
#[inline(always)]
pub fn compare_word(op: CompareOp, ty: VmType, a: u64, b: u64) -> Option<u64>
    ensures { IfSome result (λ word. (memory : Memory) →
        operations.compare_answer memory op ty (Value.Word a) (Value.Word b) ≡ Answer.Gives (Value.Word word)) }
{
    let a = Value::Word(a);
    let b = Value::Word(b);
    match ty {
        VmType::S32 => given_word(compare_in(op, IntegerType::Int, a, b)),
        VmType::U32 => given_word(compare_in(op, IntegerType::UnsignedInt, a, b)),
        VmType::S64 => given_word(compare_in(op, IntegerType::Long, a, b)),
        VmType::U64 => given_word(compare_in(op, IntegerType::UnsignedLong, a, b)),
        VmType::P64 => None,
    }
}

/// Whether a number is not zero, where it may be read.
fn number_holds(t: IntegerType, word: u64) -> Option<bool>
    ensures { IfSome result (λ holds. operations.number_holds (Some t) (Value.Word word) ≡ Some holds) }
{
    if t.is_word(word) {
        Some(word != 0)
    } else {
        None
    }
}

/// Whether a word is not zero, where it is that of a number and may be read.
#[inline(always)]
pub fn word_holds(ty: VmType, word: u64) -> Option<bool>
    ensures { IfSome result (λ holds. (memory : Memory) →
        operations.value_holds memory ty (Value.Word word) ≡ Some holds) }
{
    match ty {
        VmType::S32 => number_holds(IntegerType::Int, word),
        VmType::U32 => number_holds(IntegerType::UnsignedInt, word),
        VmType::S64 => number_holds(IntegerType::Long, word),
        VmType::U64 => number_holds(IntegerType::UnsignedLong, word),
        VmType::P64 => None,
    }
}
