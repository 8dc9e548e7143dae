//! Tokens, and the fault of a text that has a place where none begins.

use thiserror::Error;

/// A keyword (C99 6.4.1). All 37 are words, also those of parts of C that no grammar above takes.
#[derive(Clone, Copy, Debug, PartialEq, Eq)]
pub enum Keyword {
    Auto,
    Break,
    Case,
    Char,
    Const,
    Continue,
    Default,
    Do,
    Double,
    Else,
    Enum,
    Extern,
    Float,
    For,
    Goto,
    If,
    Inline,
    Int,
    Long,
    Register,
    Restrict,
    Return,
    Short,
    Signed,
    Sizeof,
    Static,
    Struct,
    Switch,
    Typedef,
    Union,
    Unsigned,
    Void,
    Volatile,
    While,
    /// `_Bool`
    Bool,
    /// `_Complex`
    Complex,
    /// `_Imaginary`
    Imaginary,
}

/// A punctuator (C99 6.4.6), without the digraphs and the marks of the preprocessor.
#[derive(Clone, Copy, Debug, PartialEq, Eq)]
pub enum Punct {
    /// `[`
    LeftBracket,
    /// `]`
    RightBracket,
    /// `(`
    LeftParen,
    /// `)`
    RightParen,
    /// `{`
    LeftBrace,
    /// `}`
    RightBrace,
    /// `.`
    Dot,
    /// `->`
    Arrow,
    /// `++`
    Increment,
    /// `--`
    Decrement,
    /// `&`
    Ampersand,
    /// `*`
    Star,
    /// `+`
    Plus,
    /// `-`
    Minus,
    /// `~`
    Tilde,
    /// `!`
    Exclamation,
    /// `/`
    Slash,
    /// `%`
    Percent,
    /// `<<`
    ShiftLeft,
    /// `>>`
    ShiftRight,
    /// `<`
    LessThan,
    /// `>`
    GreaterThan,
    /// `<=`
    LessOrEqual,
    /// `>=`
    GreaterOrEqual,
    /// `==`
    EqualEqual,
    /// `!=`
    NotEqual,
    /// `^`
    Caret,
    /// `|`
    Bar,
    /// `&&`
    AndAnd,
    /// `||`
    OrOr,
    /// `?`
    Question,
    /// `:`
    Colon,
    /// `;`
    Semicolon,
    /// `...`
    Ellipsis,
    /// `=`
    Assign,
    /// `*=`
    StarAssign,
    /// `/=`
    SlashAssign,
    /// `%=`
    PercentAssign,
    /// `+=`
    PlusAssign,
    /// `-=`
    MinusAssign,
    /// `<<=`
    ShiftLeftAssign,
    /// `>>=`
    ShiftRightAssign,
    /// `&=`
    AmpersandAssign,
    /// `^=`
    CaretAssign,
    /// `|=`
    BarAssign,
    /// `,`
    Comma,
}

/// What a token is (C99 6.4).
#[derive(Clone, Copy, Debug, PartialEq, Eq)]
pub enum TokenKind {
    /// An identifier that is no keyword (C99 6.4.2).
    Name,
    /// An integer constant (C99 6.4.4.1).
    Number,
    /// A character constant of one item (C99 6.4.4.4).
    Char,
    /// A string literal (C99 6.4.5).
    Text,
    /// A keyword (C99 6.4.1).
    Word(Keyword),
    /// A punctuator (C99 6.4.6).
    Mark(Punct),
    /// The end of the text, of no bytes.
    End,
}

/// A token: its spelling is the `len` bytes of the text from the offset `at` on.
#[derive(Clone, Copy, Debug, PartialEq, Eq)]
pub struct Token {
    pub kind: TokenKind,
    pub at: u32,
    pub len: u32,
}

/// The offset `at` of the text is the first, past whole pieces, at which no token, blank, comment
/// or linemarker begins.
#[derive(Clone, Copy, Debug, PartialEq, Eq, Error)]
#[error("no token begins at offset {at}")]
pub struct LexFault {
    pub at: u32,
}
