//! The words of the lines that print a tree.

ghost use Rattle.std.specs.Prelude.{◌≡◌, ◌++◌, IfOk, OnOk, option_map};
ghost use Rattle.c_tree.specs.Words as words;

use bk_containers::Name;
use c_tree::{AssignOp, BasicType, BinaryOp, StepOp, Storage, UnaryOp};
use std::alloc::AllocError;

/// The spelling of an operator in front of its operand.
pub fn unary_word(op: UnaryOp) -> &'static str
    ensures { result.now ≡ words.unary_word op }
{
    match op {
        UnaryOp::Increment => "++",
        UnaryOp::Decrement => "--",
        UnaryOp::Address => "&",
        UnaryOp::Dereference => "*",
        UnaryOp::Plus => "+",
        UnaryOp::Minus => "-",
        UnaryOp::Invert => "~",
        UnaryOp::Not => "!",
    }
}

/// The spelling of an operator behind its operand.
pub fn step_word(op: StepOp) -> &'static str
    ensures { result.now ≡ words.step_word op }
{
    match op {
        StepOp::Increment => "++",
        StepOp::Decrement => "--",
    }
}

/// The spelling of an operator between two operands.
pub fn binary_word(op: BinaryOp) -> &'static str
    ensures { result.now ≡ words.binary_word op }
{
    match op {
        BinaryOp::LogicalOr => "||",
        BinaryOp::LogicalAnd => "&&",
        BinaryOp::Or => "|",
        BinaryOp::Xor => "^",
        BinaryOp::And => "&",
        BinaryOp::Equal => "==",
        BinaryOp::NotEqual => "!=",
        BinaryOp::Less => "<",
        BinaryOp::Greater => ">",
        BinaryOp::LessEqual => "<=",
        BinaryOp::GreaterEqual => ">=",
        BinaryOp::ShiftLeft => "<<",
        BinaryOp::ShiftRight => ">>",
        BinaryOp::Add => "+",
        BinaryOp::Subtract => "-",
        BinaryOp::Multiply => "*",
        BinaryOp::Divide => "/",
        BinaryOp::Remainder => "%",
    }
}

/// The spelling of an assignment.
pub fn assign_word(op: AssignOp) -> &'static str
    ensures { result.now ≡ words.assign_word op }
{
    match op {
        AssignOp::Set => "=",
        AssignOp::Multiply => "*=",
        AssignOp::Divide => "/=",
        AssignOp::Remainder => "%=",
        AssignOp::Add => "+=",
        AssignOp::Subtract => "-=",
        AssignOp::ShiftLeft => "<<=",
        AssignOp::ShiftRight => ">>=",
        AssignOp::And => "&=",
        AssignOp::Xor => "^=",
        AssignOp::Or => "|=",
    }
}

/// The words of a basic type, without those that may be left out.
pub fn basic_words(ty: BasicType) -> &'static str
    ensures { result.now ≡ words.basic_words ty }
{
    match ty {
        BasicType::Void => "void",
        BasicType::Char => "char",
        BasicType::SignedChar => "signed char",
        BasicType::UnsignedChar => "unsigned char",
        BasicType::Short => "short",
        BasicType::UnsignedShort => "unsigned short",
        BasicType::Int => "int",
        BasicType::Signed => "signed",
        BasicType::Unsigned => "unsigned",
        BasicType::Long => "long",
        BasicType::UnsignedLong => "unsigned long",
    }
}

/// What a line says behind a name that is declared with this storage word.
pub fn storage_text(storage: Option<Storage>) -> &'static str
    ensures { result.now ≡ words.storage_text storage }
{
    match storage {
        None => "",
        Some(Storage::Static) => " static",
        Some(Storage::Extern) => " extern",
    }
}

/// A name, or a dash where it is missing.
pub fn name_or_dash(name: &Option<Name>) -> &[u8]
    ensures { result.now ≡ words.name_or_dash name.now }
{
    match name {
        None => b"-",
        Some(name) => name.as_slice(),
    }
}
