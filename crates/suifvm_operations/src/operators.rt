//! Operators on the values of registers of any type.

ghost use Rattle.std.specs.Prelude.{◌≡◌, not, option_map, Some};
ghost use Rattle.suifvm_operations.specs.Tidy.{MemoryIsTidy};
ghost use Rattle.suifvm_meaning.specs.Operations as operations;

use crate::numbers::{binary_in, compare_in};
use crate::pointers::{compare_pointer, is_null, negate_test, pointer_answer};
use bk_arithmetic::comparison::truth;
use bk_arithmetic::integer_type::IntegerType;
use mem_model::memory::Mem;
use mem_model::value::Value;
use suifvm_ir::insn::{CompareOp, VmBinaryOp};
use suifvm_ir::types::VmType;
use suifvm_meaning::answer::Answer;

/// `add`, `sub`, `mul`, `div`, `rem`, `and`, `ior`, `xor`.
pub fn binary(memory: &Mem, op: VmBinaryOp, ty: VmType, a: Value, b: Value) -> Answer
    requires { MemoryIsTidy memory.now }
    ensures { result ≡ operations.binary_answer memory.now op ty a b }
{
    match ty {
        VmType::S32 => binary_in(op, IntegerType::Int, a, b),
        VmType::U32 => binary_in(op, IntegerType::UnsignedInt, a, b),
        VmType::S64 => binary_in(op, IntegerType::Long, a, b),
        VmType::U64 => binary_in(op, IntegerType::UnsignedLong, a, b),
        VmType::P64 => pointer_answer(memory, op, a, b),
    }
}

/// A test as an `s32`.
fn of_test(test: Option<bool>) -> Answer
    ensures { result ≡ operations.test_answer test }
{
    match test {
        None => Answer::Fails,
        Some(holds) => Answer::Gives(Value::Word(truth(holds))),
    }
}

/// `seq`, `sne`, `sl`, `sle`.
pub fn compare(memory: &Mem, op: CompareOp, ty: VmType, a: Value, b: Value) -> Answer
    ensures { result ≡ operations.compare_answer memory.now op ty a b }
{
    match ty {
        VmType::S32 => compare_in(op, IntegerType::Int, a, b),
        VmType::U32 => compare_in(op, IntegerType::UnsignedInt, a, b),
        VmType::S64 => compare_in(op, IntegerType::Long, a, b),
        VmType::U64 => compare_in(op, IntegerType::UnsignedLong, a, b),
        VmType::P64 => of_test(compare_pointer(memory, op, a, b)),
    }
}

/// Whether a number is not zero.
fn number_holds(t: IntegerType, value: Value) -> Option<bool>
    ensures { result ≡ operations.number_holds (Some t) value }
{
    match value {
        Value::Word(word) => if t.is_word(word) {
            Some(word != 0)
        } else {
            None
        },
        Value::Address(_) => None,
        Value::Unset => None,
    }
}

/// Whether a value is neither zero nor null.
pub fn value_holds(memory: &Mem, ty: VmType, value: Value) -> Option<bool>
    ensures { result ≡ operations.value_holds memory.now ty value }
{
    match ty {
        VmType::S32 => number_holds(IntegerType::Int, value),
        VmType::U32 => number_holds(IntegerType::UnsignedInt, value),
        VmType::S64 => number_holds(IntegerType::Long, value),
        VmType::U64 => number_holds(IntegerType::UnsignedLong, value),
        VmType::P64 => negate_test(is_null(memory, value)),
    }
}
