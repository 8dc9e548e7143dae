//! What the operate instructions do with the words of their operands.

ghost use Rattle.std.specs.Prelude.{◌≡◌, ◌*◌, ◌^◌, ◌%◌, ◌/◌, ◌<◌, ◌==◌, if◌then◌else◌};
ghost use Rattle.std.specs.Int.{w8, w16, w32, w64};
ghost use Rattle.alpha_isa.specs.Arithmetic.{operation_effect, sign_extension, signed_value, word_complement, kept_bytes, truth_result, Gives};
ghost use Rattle.alpha_run.specs.model.OperationResult.{operated_by, gives_checked};

use alpha_isa::insn::OperateOp;

/// What an operation does with its destination.
#[derive(Clone, Copy, Debug, PartialEq, Eq)]
pub(crate) enum OperationResult {
    Gives(u64),
    Keeps,
    Overflows,
}

/// The low 32 bits as a signed number.
fn long_of(word: u64) -> i32
    ensures { result ≡ signed_value w32 word }
{
    ((word & 0xffff_ffff) as u32).cast_signed()
}

/// The low 32 bits with their sign in all bits above them.
pub(crate) fn extend_long(word: u64) -> u64
    ensures { result ≡ sign_extension w32 word }
{
    i64::from(long_of(word)).cast_unsigned()
}

fn extend_byte(word: u64) -> u64
    ensures { result ≡ sign_extension w8 word }
{
    i64::from(((word & 0xff) as u8).cast_signed()).cast_unsigned()
}

fn extend_short(word: u64) -> u64
    ensures { result ≡ sign_extension w16 word }
{
    i64::from(((word & 0xffff) as u16).cast_signed()).cast_unsigned()
}

/// A byte of a word, or 0 where its bit in the mask is 0.
fn keep_byte(word: u64, mask: u64, place: u64) -> u64
    requires { place < 8 }
    ensures value { result ≡ (if mask / 2 ^ place % 2 == 1 then word / 2 ^ (8 * place) % 256 else 0) }
    ensures small { result < 256 }
{
    if mask >> place & 1 == 1 {
        word >> (8 * place) & 0xff
    } else {
        0
    }
}

/// The bytes of a word whose bit in the mask is 1.
fn keep_bytes(word: u64, mask: u64) -> u64
    ensures { result ≡ kept_bytes 8 word mask }
{
    let mut kept = 0;
    let mut place: u64 = 8;
    while place > 0 {
        place -= 1;
        kept = keep_byte(word, mask, place) + 256 * kept;
    }
    kept
}

fn truth_of(holds: bool) -> OperationResult
    ensures { operated_by result ≡ truth_result holds }
{
    OperationResult::Gives(u64::from(holds))
}

/// A signed sum, difference or product of 32 bits, where it fits.
fn long_checked(number: Option<i32>) -> OperationResult
    ensures { operated_by result ≡ gives_checked number }
{
    match number {
        Some(number) => OperationResult::Gives(i64::from(number).cast_unsigned()),
        None => OperationResult::Overflows,
    }
}

/// The same of 64 bits.
fn quad_checked(number: Option<i64>) -> OperationResult
    ensures { operated_by result ≡ gives_checked number }
{
    match number {
        Some(number) => OperationResult::Gives(number.cast_unsigned()),
        None => OperationResult::Overflows,
    }
}

/// The high half of a product.
fn high_product(a: u64, b: u64) -> u64
    ensures { result ≡ a * b / 2 ^ 64 }
{
    a.carrying_mul(b, 0).1
}

/// A word shifted right with its sign.
fn shift_signed(word: u64, count: u64) -> u64
    ensures { operation_effect OperateOp.Sra word count ≡ Gives result }
{
    (word.cast_signed() >> (count & 63)).cast_unsigned()
}

/// What an operation does, on the words of its two operands.
pub(crate) fn operate(op: OperateOp, a: u64, b: u64) -> OperationResult
    ensures { operated_by result ≡ operation_effect op a b }
{
    match op {
        OperateOp::Addl => OperationResult::Gives(extend_long(a.wrapping_add(b))),
        OperateOp::Subl => OperationResult::Gives(extend_long(a.wrapping_sub(b))),
        OperateOp::Cmpult => truth_of(a < b),
        OperateOp::Addq => OperationResult::Gives(a.wrapping_add(b)),
        OperateOp::S4addq => OperationResult::Gives(a.wrapping_mul(4).wrapping_add(b)),
        OperateOp::Subq => OperationResult::Gives(a.wrapping_sub(b)),
        OperateOp::Cmpeq => truth_of(a == b),
        OperateOp::S8addq => OperationResult::Gives(a.wrapping_mul(8).wrapping_add(b)),
        OperateOp::Cmpule => truth_of(a <= b),
        OperateOp::AddlV => long_checked(long_of(a).checked_add(long_of(b))),
        OperateOp::SublV => long_checked(long_of(a).checked_sub(long_of(b))),
        OperateOp::Cmplt => truth_of(a.cast_signed() < b.cast_signed()),
        OperateOp::AddqV => quad_checked(a.cast_signed().checked_add(b.cast_signed())),
        OperateOp::SubqV => quad_checked(a.cast_signed().checked_sub(b.cast_signed())),
        OperateOp::Cmple => truth_of(a.cast_signed() <= b.cast_signed()),
        OperateOp::And => OperationResult::Gives(a & b),
        OperateOp::Bic => OperationResult::Gives(a & !b),
        OperateOp::Bis => OperationResult::Gives(a | b),
        OperateOp::Cmoveq => if a == 0 {
            OperationResult::Gives(b)
        } else {
            OperationResult::Keeps
        },
        OperateOp::Cmovne => if a == 0 {
            OperationResult::Keeps
        } else {
            OperationResult::Gives(b)
        },
        OperateOp::Ornot => OperationResult::Gives(a | !b),
        OperateOp::Xor => OperationResult::Gives(a ^ b),
        OperateOp::Eqv => OperationResult::Gives(a ^ !b),
        OperateOp::Zapnot => OperationResult::Gives(keep_bytes(a, b)),
        OperateOp::Srl => OperationResult::Gives(a >> (b & 63)),
        OperateOp::Sll => OperationResult::Gives(a << (b & 63)),
        OperateOp::Sra => OperationResult::Gives(shift_signed(a, b)),
        OperateOp::Mull => OperationResult::Gives(extend_long(a.wrapping_mul(b))),
        OperateOp::Mulq => OperationResult::Gives(a.wrapping_mul(b)),
        OperateOp::Umulh => OperationResult::Gives(high_product(a, b)),
        OperateOp::MullV => long_checked(long_of(a).checked_mul(long_of(b))),
        OperateOp::MulqV => quad_checked(a.cast_signed().checked_mul(b.cast_signed())),
        OperateOp::Sextb => OperationResult::Gives(extend_byte(b)),
        OperateOp::Sextw => OperationResult::Gives(extend_short(b)),
    }
}
