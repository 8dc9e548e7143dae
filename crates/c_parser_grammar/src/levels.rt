//! The levels of expressions: the tighter their parts hold together, the higher (C99 6.5).

ghost use Rattle.std.specs.Prelude.{◌≡◌};
ghost use Rattle.c_parser_grammar.specs.Levels as levels;

use crate::Infix;
use c_tree::BinaryOp;

/// Below every expression.
pub const NONE: u8 = 0;
/// An expression with commas.
pub const COMMA: u8 = 1;
/// An assignment expression (C99 6.5.16).
pub const ASSIGNMENT: u8 = 2;
/// An assignment and `?` group to the right: as operators they stand a level above what they make.
pub const ASSIGNMENT_OPERATOR: u8 = 3;
/// A conditional expression (C99 6.5.15).
pub const CONDITIONAL: u8 = 4;
/// The operator `?`, which stands above what it makes.
pub const CONDITIONAL_OPERATOR: u8 = 5;
/// `||` (C99 6.5.14).
pub const LOGICAL_OR: u8 = 6;
/// `&&` (C99 6.5.13).
pub const LOGICAL_AND: u8 = 7;
/// `|` (C99 6.5.12).
pub const OR: u8 = 8;
/// `^` (C99 6.5.11).
pub const XOR: u8 = 9;
/// `&` (C99 6.5.10).
pub const AND: u8 = 10;
/// `==` and `!=` (C99 6.5.9).
pub const EQUALITY: u8 = 11;
/// `<` and its like (C99 6.5.8).
pub const RELATIONAL: u8 = 12;
/// `<<` and `>>` (C99 6.5.7).
pub const SHIFT: u8 = 13;
/// `+` and `-` (C99 6.5.6).
pub const ADDITIVE: u8 = 14;
/// `*`, `/` and `%` (C99 6.5.5).
pub const MULTIPLICATIVE: u8 = 15;
/// A cast expression (C99 6.5.4).
pub const CAST: u8 = 16;
/// A unary expression (C99 6.5.3).
pub const UNARY: u8 = 17;
/// A postfix expression (C99 6.5.2).
pub const POSTFIX: u8 = 18;
/// A primary expression (C99 6.5.1).
pub const PRIMARY: u8 = 19;
/// Above every expression: of what stands only within a primary expression.
pub const INNER: u8 = 20;

/// The level of an operator between two operands (C99 6.5.5 to 6.5.14).
pub fn level_of(op: BinaryOp) -> u8
    ensures { result ≡ levels.level_of op }
{
    match op {
        BinaryOp::LogicalOr => LOGICAL_OR,
        BinaryOp::LogicalAnd => LOGICAL_AND,
        BinaryOp::Or => OR,
        BinaryOp::Xor => XOR,
        BinaryOp::And => AND,
        BinaryOp::Equal | BinaryOp::NotEqual => EQUALITY,
        BinaryOp::Less | BinaryOp::Greater => RELATIONAL,
        BinaryOp::LessEqual | BinaryOp::GreaterEqual => RELATIONAL,
        BinaryOp::ShiftLeft | BinaryOp::ShiftRight => SHIFT,
        BinaryOp::Add | BinaryOp::Subtract => ADDITIVE,
        BinaryOp::Multiply | BinaryOp::Divide | BinaryOp::Remainder => MULTIPLICATIVE,
    }
}

/// The level of the expressions that such a token may stand behind. It is `NONE` where no expression
/// goes on.
pub fn binding_level(kind: Infix) -> u8
    ensures { result ≡ levels.binding_level kind }
{
    match kind {
        Infix::Comma => COMMA,
        Infix::Assign(_) => ASSIGNMENT_OPERATOR,
        Infix::Conditional => CONDITIONAL_OPERATOR,
        Infix::Binary(op) => level_of(op),
        Infix::Index | Infix::Field | Infix::Arrow | Infix::Step(_) => POSTFIX,
        Infix::Tight => INNER,
        Infix::Nothing => NONE,
    }
}

/// The level that an operator demands of its left operand.
pub fn operand_level(kind: Infix) -> u8
    ensures { result ≡ levels.operand_level kind }
{
    match kind {
        Infix::Assign(_) => UNARY,
        Infix::Conditional => LOGICAL_OR,
        kind => binding_level(kind),
    }
}

/// The level of what an operator makes.
pub fn result_level(kind: Infix) -> u8
    ensures { result ≡ levels.result_level kind }
{
    match kind {
        Infix::Assign(_) => ASSIGNMENT,
        Infix::Conditional => CONDITIONAL,
        kind => binding_level(kind),
    }
}
