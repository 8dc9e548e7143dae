//! The words: names and keywords (C99 6.4.1, 6.4.2).

ghost use Rattle.std.specs.Prelude.{◌≡◌, find};
ghost use Rattle.std.specs.Str.{bytes_eq};
ghost use Rattle.c_lexer.specs.Words.{keyword_of, kind_of_word, spelling};
ghost use Rattle.c_lexer.specs.model.Keywords as model;

use crate::token::{Keyword, TokenKind};

#[tactic(auto, unfolding(crate::specs::Words::spelling))]
fn spelling_of(keyword: Keyword) -> &'static [u8]
    ensures { result.now ≡ spelling keyword }
{
    match keyword {
        Keyword::Auto => b"auto",
        Keyword::Break => b"break",
        Keyword::Case => b"case",
        Keyword::Char => b"char",
        Keyword::Const => b"const",
        Keyword::Continue => b"continue",
        Keyword::Default => b"default",
        Keyword::Do => b"do",
        Keyword::Double => b"double",
        Keyword::Else => b"else",
        Keyword::Enum => b"enum",
        Keyword::Extern => b"extern",
        Keyword::Float => b"float",
        Keyword::For => b"for",
        Keyword::Goto => b"goto",
        Keyword::If => b"if",
        Keyword::Inline => b"inline",
        Keyword::Int => b"int",
        Keyword::Long => b"long",
        Keyword::Register => b"register",
        Keyword::Restrict => b"restrict",
        Keyword::Return => b"return",
        Keyword::Short => b"short",
        Keyword::Signed => b"signed",
        Keyword::Sizeof => b"sizeof",
        Keyword::Static => b"static",
        Keyword::Struct => b"struct",
        Keyword::Switch => b"switch",
        Keyword::Typedef => b"typedef",
        Keyword::Union => b"union",
        Keyword::Unsigned => b"unsigned",
        Keyword::Void => b"void",
        Keyword::Volatile => b"volatile",
        Keyword::While => b"while",
        Keyword::Bool => b"_Bool",
        Keyword::Complex => b"_Complex",
        Keyword::Imaginary => b"_Imaginary",
    }
}

/// The keywords that begin with this byte: a word is compared with these alone, and no byte has more than six.
#[tactic(auto, unfolding(crate::specs::model::Keywords::keywords_with))]
fn keywords_with(first: u8) -> &'static [Keyword]
    ensures { result.now ≡ model.keywords_with first }
{
    match first {
        b'a' => &[Keyword::Auto],
        b'b' => &[Keyword::Break],
        b'c' => &[
            Keyword::Case,
            Keyword::Char,
            Keyword::Const,
            Keyword::Continue,
        ],
        b'd' => &[Keyword::Default, Keyword::Do, Keyword::Double],
        b'e' => &[Keyword::Else, Keyword::Enum, Keyword::Extern],
        b'f' => &[Keyword::Float, Keyword::For],
        b'g' => &[Keyword::Goto],
        b'i' => &[Keyword::If, Keyword::Inline, Keyword::Int],
        b'l' => &[Keyword::Long],
        b'r' => &[Keyword::Register, Keyword::Restrict, Keyword::Return],
        b's' => &[
            Keyword::Short,
            Keyword::Signed,
            Keyword::Sizeof,
            Keyword::Static,
            Keyword::Struct,
            Keyword::Switch,
        ],
        b't' => &[Keyword::Typedef],
        b'u' => &[Keyword::Union, Keyword::Unsigned],
        b'v' => &[Keyword::Void, Keyword::Volatile],
        b'w' => &[Keyword::While],
        b'_' => &[Keyword::Bool, Keyword::Complex, Keyword::Imaginary],
        _ => &[],
    }
}

/// The one of these keywords that the word spells.
fn keyword_among(keywords: &[Keyword], word: &[u8]) -> Option<Keyword>
    ensures { result ≡ find (λ keyword. bytes_eq word.now (spelling keyword)) keywords.now }
{
    keywords
        .iter()
        .copied()
        .find(|keyword| word == spelling_of(*keyword))
}

#[tactic(auto, using(crate::proofs::Keywords::empty_is_none))]
fn keyword_of_word(word: &[u8]) -> Option<Keyword>
    ensures { result ≡ keyword_of word.now }
{
    match word {
        [] => None,
        [first, ..] => keyword_among(keywords_with(*first), word),
    }
}

/// What a run of letters and digits is: a keyword, or a name.
pub fn word_kind(word: &[u8]) -> TokenKind
    ensures { result ≡ kind_of_word word.now }
{
    match keyword_of_word(word) {
        Some(keyword) => TokenKind::Word(keyword),
        None => TokenKind::Name,
    }
}
