//! What a token may be to what stands before or behind it.

ghost use Rattle.std.specs.Prelude.{◌≡◌};
ghost use Rattle.c_parser_grammar.specs.Classes as classes;

use c_lexer::{Keyword, Punct, TokenKind};
use c_tree::{AssignOp, BinaryOp, StepOp, UnaryOp};

/// What a token is behind an expression.
#[derive(Clone, Copy, Debug, PartialEq, Eq)]
pub enum Infix {
    Comma,
    Assign(AssignOp),
    Conditional,
    Binary(BinaryOp),
    Index,
    Field,
    Arrow,
    Step(StepOp),
    /// What stands only behind a part of a primary expression: the bracket of a call, or a further text.
    Tight,
    Nothing,
}

/// What a token is where an expression begins.
#[derive(Clone, Copy, Debug, PartialEq, Eq)]
pub enum Prefix {
    Name,
    Number,
    Character,
    Text,
    Bracket,
    /// `++` or `--`
    Step(UnaryOp),
    Unary(UnaryOp),
    SizeOf,
    Nothing,
}

/// A word of a basic type (C99 6.7.2).
#[derive(Clone, Copy, Debug, PartialEq, Eq)]
pub enum TypeWord {
    Void,
    Char,
    Short,
    Int,
    Long,
    Signed,
    Unsigned,
}

/// What a token is where a type may begin.
#[derive(Clone, Copy, Debug, PartialEq, Eq)]
pub enum Specifier {
    Const,
    Word(TypeWord),
    Struct,
    Enum,
    Name,
    Nothing,
}

/// What a statement begins with (C99 6.8). `Other` is an expression, or nothing.
#[derive(Clone, Copy, Debug, PartialEq, Eq)]
pub enum Head {
    Block,
    Empty,
    If,
    While,
    Do,
    For,
    Switch,
    Break,
    Continue,
    Return,
    Other,
}

/// What an external declaration begins with (C99 6.7.1). `Other` is a type, or nothing.
#[derive(Clone, Copy, Debug, PartialEq, Eq)]
pub enum StorageClass {
    Typedef,
    Static,
    Extern,
    Other,
}

/// What the token is behind an expression.
pub fn infix_of(kind: TokenKind) -> Infix
    ensures { result ≡ classes.infix_of kind }
{
    match kind {
        TokenKind::Text => Infix::Tight,
        TokenKind::Mark(mark) => infix_mark(mark),
        _ => Infix::Nothing,
    }
}

fn infix_mark(mark: Punct) -> Infix
    ensures { result ≡ classes.infix_mark mark }
{
    match mark {
        Punct::Comma => Infix::Comma,
        Punct::Assign => Infix::Assign(AssignOp::Set),
        Punct::StarAssign => Infix::Assign(AssignOp::Multiply),
        Punct::SlashAssign => Infix::Assign(AssignOp::Divide),
        Punct::PercentAssign => Infix::Assign(AssignOp::Remainder),
        Punct::PlusAssign => Infix::Assign(AssignOp::Add),
        Punct::MinusAssign => Infix::Assign(AssignOp::Subtract),
        Punct::ShiftLeftAssign => Infix::Assign(AssignOp::ShiftLeft),
        Punct::ShiftRightAssign => Infix::Assign(AssignOp::ShiftRight),
        Punct::AmpersandAssign => Infix::Assign(AssignOp::And),
        Punct::CaretAssign => Infix::Assign(AssignOp::Xor),
        Punct::BarAssign => Infix::Assign(AssignOp::Or),
        Punct::Question => Infix::Conditional,
        Punct::OrOr => Infix::Binary(BinaryOp::LogicalOr),
        Punct::AndAnd => Infix::Binary(BinaryOp::LogicalAnd),
        Punct::Bar => Infix::Binary(BinaryOp::Or),
        Punct::Caret => Infix::Binary(BinaryOp::Xor),
        Punct::Ampersand => Infix::Binary(BinaryOp::And),
        Punct::EqualEqual => Infix::Binary(BinaryOp::Equal),
        Punct::NotEqual => Infix::Binary(BinaryOp::NotEqual),
        Punct::LessThan => Infix::Binary(BinaryOp::Less),
        Punct::GreaterThan => Infix::Binary(BinaryOp::Greater),
        Punct::LessOrEqual => Infix::Binary(BinaryOp::LessEqual),
        Punct::GreaterOrEqual => Infix::Binary(BinaryOp::GreaterEqual),
        Punct::ShiftLeft => Infix::Binary(BinaryOp::ShiftLeft),
        Punct::ShiftRight => Infix::Binary(BinaryOp::ShiftRight),
        Punct::Plus => Infix::Binary(BinaryOp::Add),
        Punct::Minus => Infix::Binary(BinaryOp::Subtract),
        Punct::Star => Infix::Binary(BinaryOp::Multiply),
        Punct::Slash => Infix::Binary(BinaryOp::Divide),
        Punct::Percent => Infix::Binary(BinaryOp::Remainder),
        Punct::LeftBracket => Infix::Index,
        Punct::Dot => Infix::Field,
        Punct::Arrow => Infix::Arrow,
        Punct::Increment => Infix::Step(StepOp::Increment),
        Punct::Decrement => Infix::Step(StepOp::Decrement),
        Punct::LeftParen => Infix::Tight,
        _ => Infix::Nothing,
    }
}

/// What the token is where an expression begins.
pub fn prefix_of(kind: TokenKind) -> Prefix
    ensures { result ≡ classes.prefix_of kind }
{
    match kind {
        TokenKind::Name => Prefix::Name,
        TokenKind::Number => Prefix::Number,
        TokenKind::Char => Prefix::Character,
        TokenKind::Text => Prefix::Text,
        TokenKind::Word(Keyword::Sizeof) => Prefix::SizeOf,
        TokenKind::Mark(mark) => prefix_mark(mark),
        _ => Prefix::Nothing,
    }
}

fn prefix_mark(mark: Punct) -> Prefix
    ensures { result ≡ classes.prefix_mark mark }
{
    match mark {
        Punct::LeftParen => Prefix::Bracket,
        Punct::Increment => Prefix::Step(UnaryOp::Increment),
        Punct::Decrement => Prefix::Step(UnaryOp::Decrement),
        Punct::Ampersand => Prefix::Unary(UnaryOp::Address),
        Punct::Star => Prefix::Unary(UnaryOp::Dereference),
        Punct::Plus => Prefix::Unary(UnaryOp::Plus),
        Punct::Minus => Prefix::Unary(UnaryOp::Minus),
        Punct::Tilde => Prefix::Unary(UnaryOp::Invert),
        Punct::Exclamation => Prefix::Unary(UnaryOp::Not),
        _ => Prefix::Nothing,
    }
}

/// What the token is where a type may begin.
pub fn specifier_of(kind: TokenKind) -> Specifier
    ensures { result ≡ classes.specifier_of kind }
{
    match kind {
        TokenKind::Name => Specifier::Name,
        TokenKind::Word(Keyword::Const) => Specifier::Const,
        TokenKind::Word(Keyword::Struct) => Specifier::Struct,
        TokenKind::Word(Keyword::Enum) => Specifier::Enum,
        TokenKind::Word(Keyword::Void) => Specifier::Word(TypeWord::Void),
        TokenKind::Word(Keyword::Char) => Specifier::Word(TypeWord::Char),
        TokenKind::Word(Keyword::Short) => Specifier::Word(TypeWord::Short),
        TokenKind::Word(Keyword::Int) => Specifier::Word(TypeWord::Int),
        TokenKind::Word(Keyword::Long) => Specifier::Word(TypeWord::Long),
        TokenKind::Word(Keyword::Signed) => Specifier::Word(TypeWord::Signed),
        TokenKind::Word(Keyword::Unsigned) => Specifier::Word(TypeWord::Unsigned),
        _ => Specifier::Nothing,
    }
}

/// What the token is where a statement begins.
pub fn head_of(kind: TokenKind) -> Head
    ensures { result ≡ classes.head_of kind }
{
    match kind {
        TokenKind::Mark(Punct::LeftBrace) => Head::Block,
        TokenKind::Mark(Punct::Semicolon) => Head::Empty,
        TokenKind::Word(Keyword::If) => Head::If,
        TokenKind::Word(Keyword::While) => Head::While,
        TokenKind::Word(Keyword::Do) => Head::Do,
        TokenKind::Word(Keyword::For) => Head::For,
        TokenKind::Word(Keyword::Switch) => Head::Switch,
        TokenKind::Word(Keyword::Break) => Head::Break,
        TokenKind::Word(Keyword::Continue) => Head::Continue,
        TokenKind::Word(Keyword::Return) => Head::Return,
        _ => Head::Other,
    }
}

/// What the token is where an external declaration begins.
pub fn storage_class_of(kind: TokenKind) -> StorageClass
    ensures { result ≡ classes.storage_class_of kind }
{
    match kind {
        TokenKind::Word(Keyword::Typedef) => StorageClass::Typedef,
        TokenKind::Word(Keyword::Static) => StorageClass::Static,
        TokenKind::Word(Keyword::Extern) => StorageClass::Extern,
        _ => StorageClass::Other,
    }
}
