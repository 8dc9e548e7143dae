//! The words and signs of operators.

use c_tree::{AssignOp, BinaryOp, StepOp, UnaryOp};
use c_typed_tree::Builtin;

/// The sign of an operator in front of its operand.
pub fn unary_word(op: UnaryOp) -> &'static str {
    match op {
        UnaryOp::Increment => "++",
        UnaryOp::Decrement => "--",
        UnaryOp::Address => "&",
        UnaryOp::Dereference => "*",
        UnaryOp::Plus => "+",
        UnaryOp::Minus => "-",
        UnaryOp::Invert => "~",
        UnaryOp::Not => "!",
    }
}

/// The word of an operator behind its operand.
pub fn step_word(op: StepOp) -> &'static str {
    match op {
        StepOp::Increment => "after++",
        StepOp::Decrement => "after--",
    }
}

/// The sign of an operator between two operands.
pub fn binary_word(op: BinaryOp) -> &'static str {
    match op {
        BinaryOp::LogicalOr => "||",
        BinaryOp::LogicalAnd => "&&",
        BinaryOp::Or => "|",
        BinaryOp::Xor => "^",
        BinaryOp::And => "&",
        BinaryOp::Equal => "==",
        BinaryOp::NotEqual => "!=",
        BinaryOp::Less => "<",
        BinaryOp::Greater => ">",
        BinaryOp::LessEqual => "<=",
        BinaryOp::GreaterEqual => ">=",
        BinaryOp::ShiftLeft => "<<",
        BinaryOp::ShiftRight => ">>",
        BinaryOp::Add => "+",
        BinaryOp::Subtract => "-",
        BinaryOp::Multiply => "*",
        BinaryOp::Divide => "/",
        BinaryOp::Remainder => "%",
    }
}

/// The sign of an assignment.
pub fn assign_word(op: AssignOp) -> &'static str {
    match op {
        AssignOp::Set => "=",
        AssignOp::Multiply => "*=",
        AssignOp::Divide => "/=",
        AssignOp::Remainder => "%=",
        AssignOp::Add => "+=",
        AssignOp::Subtract => "-=",
        AssignOp::ShiftLeft => "<<=",
        AssignOp::ShiftRight => ">>=",
        AssignOp::And => "&=",
        AssignOp::Xor => "^=",
        AssignOp::Or => "|=",
    }
}

/// The name of a built-in function.
pub fn builtin_word(builtin: Builtin) -> &'static str {
    match builtin {
        Builtin::Putchar => "putchar",
        Builtin::Getchar => "getchar",
        Builtin::Abort => "abort",
        Builtin::Exit => "exit",
    }
}
