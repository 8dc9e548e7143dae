//! A cursor over tokens.

ghost use Rattle.std.specs.Prelude.{◌≡◌, IfOk, IfErr, length, take, drop, Ok};
ghost use Rattle.c_lexer.specs.Pieces.{lexemes};
ghost use Rattle.c_parser_grammar.specs.Tokens as tokens;
ghost use Rattle.c_parser_grammar.specs.Parser as model;
ghost use Rattle.c_parser_cursor.specs.Answers.{Answers, place_or};
ghost use Rattle.c_parser_cursor.specs.declared.cursor.ParseStop.TheVariants.{Refused};

use bk_containers::Name;
use bk_memory::memory_is_short;
use c_lexer::{Keyword, Punct, Token, TokenKind};
use std::alloc::{AllocError, Global};
use std::marker::Model;

/// Why a function that reads has stopped.
#[derive(Clone, Copy, Debug, PartialEq, Eq)]
pub enum ParseStop {
    /// The grammar's function refuses the token at the cursor.
    Refused,
    /// Memory is short. Nothing is known of the cursor then.
    NoMemory,
}

impl From<AllocError> for ParseStop {
    ghost use Rattle.std.specs.Prelude.{◌≡◌};
    ghost use Rattle.bk_memory.specs.Shortage.{MemoryIsShort};
    ghost use Rattle.c_parser_cursor.specs.declared.cursor.ParseStop.TheVariants.{NoMemory};

    ghost from_gives = { λ _ e. (e ≡ NoMemory) × MemoryIsShort };

    fn from(error: AllocError) -> ParseStop {
        memory_is_short(error);
        ParseStop::NoMemory
    }
}

/// The tokens that are still to be read, which contracts see with their spellings.
///
/// A function that takes them by `&mut` goes past what it reads. Where it answers [`ParseStop::Refused`], the
/// refused token is the next one; where it answers [`ParseStop::NoMemory`], nothing is known of them: no more
/// is to be read from them then.
#[derive(Drop)]
pub struct Tokens<'a> {
    /// The text that they are of.
    text: &'a [u8],
    rest: &'a [Token],
}

impl<'a> Model for Tokens<'a> {
    ghost use Rattle.std.specs.Prelude.{List};
    ghost use Rattle.c_lexer.specs.Pieces.{Lexeme, lexemes};
    ghost use Rattle.c_parser_cursor.specs.model.Codes.{lexemes_code};

    ghost Value = { List Lexeme };

    ghost coded = { lexemes_code };

    ghost view = { λ t. lexemes t.text.now t.rest.now };
}

impl<'a> Tokens<'a> {
    /// These tokens of a text.
    pub fn new(text: &'a [u8], rest: &'a [Token]) -> Tokens<'a>
        ensures { result ≡ lexemes text.now rest.now }
    {
        Tokens { text, rest }
    }

    /// How many are left.
    #[tactic(auto, using(crate::proofs::Lexemes::length_lexemes))]
    pub fn count_left(&self) -> usize
        ensures { result ≡ length self.now }
    {
        self.rest.len()
    }

    /// The kind of the next one.
    pub fn peek(&self) -> TokenKind
        ensures { result ≡ tokens.kind_at self.now }
    {
        match self.rest {
            [] => TokenKind::End,
            [first, ..] => first.kind,
        }
    }

    /// The offset of the next one in the text.
    pub fn place(&self) -> u32
        ensures { result ≡ tokens.token_place self.now }
    {
        match self.rest {
            [] => 0,
            [first, ..] => first.at,
        }
    }

    /// The same, or this offset behind the last one.
    pub fn place_or(&self, end: u32) -> u32
        ensures { result ≡ place_or end self.now }
    {
        match self.rest {
            [] => end,
            [refused, ..] => refused.at,
        }
    }

    /// The bytes of the next one.
    pub fn spelling(&self) -> &'a [u8]
        ensures { result.now ≡ tokens.spelling_at self.now }
    {
        match self.rest {
            [] => &[],
            [first, ..] => front(behind(self.text, first.at as usize), first.len as usize),
        }
    }

    /// The bytes of the next one, as a name of their own.
    pub fn name(&self, alloc: Global) -> Result<Name, AllocError>
        ensures { IfOk result (λ n. n ≡ tokens.spelling_at self.now) }
    {
        Name::from_slice(alloc, self.spelling())
    }

    /// The tokens behind the next one.
    pub fn behind(&self) -> Tokens<'a>
        ensures { result ≡ tokens.token_tail self.now }
    {
        match self.rest {
            [] => Tokens {
                text: self.text,
                rest: &[],
            },
            [_, rest @ ..] => Tokens {
                text: self.text,
                rest,
            },
        }
    }

    /// Goes past the next one.
    pub fn take(&mut self)
        ensures { self.new ≡ tokens.token_tail self.old }
    {
        if let [_, rest @ ..] = self.rest {
            self.rest = rest;
        }
    }

    /// Whether the next one is this punctuator.
    pub fn sees(&self, mark: Punct) -> bool
        ensures { result ≡ tokens.is_mark mark (tokens.kind_at self.now) }
    {
        match self.peek() {
            TokenKind::Mark(found) => found == mark,
            _ => false,
        }
    }

    /// Whether the next one is this keyword.
    pub fn sees_word(&self, word: Keyword) -> bool
        ensures { result ≡ tokens.is_keyword word (tokens.kind_at self.now) }
    {
        match self.peek() {
            TokenKind::Word(found) => found == word,
            _ => false,
        }
    }

    /// Whether the next one is a name.
    pub fn sees_name(&self) -> bool
        ensures { result ≡ tokens.is_name_token (tokens.kind_at self.now) }
    {
        match self.peek() {
            TokenKind::Name => true,
            _ => false,
        }
    }

    /// Whether the next one is a text literal.
    pub fn sees_text(&self) -> bool
        ensures { result ≡ tokens.is_text (tokens.kind_at self.now) }
    {
        match self.peek() {
            TokenKind::Text => true,
            _ => false,
        }
    }

    /// Reads this punctuator. No memory is taken.
    ///
    /// # Errors
    ///
    /// [`ParseStop::Refused`] where another token stands here.
    #[tactic(auto, unfolding(c_parser_grammar::specs::Parser::expect))]
    pub fn expect(&mut self, mark: Punct) -> Result<(), ParseStop>
        ensures reads { Answers (model.expect mark self.old) result self.new }
        ensures fault { IfErr result (λ e. e ≡ Refused) }
    {
        if self.sees(mark) {
            self.take();
            Ok(())
        } else {
            Err(ParseStop::Refused)
        }
    }

    /// Reads this punctuator, which ends what was found. No memory is taken.
    ///
    /// # Errors
    ///
    /// [`ParseStop::Refused`] where another token stands here.
    pub fn close<T: Drop>(&mut self, mark: Punct, found: T) -> Result<T, ParseStop>
        ensures reads { Answers (model.and_then (model.expect mark self.old) (λ _. model.pure found)) result self.new }
        ensures fault { IfErr result (λ e. e ≡ Refused) }
    {
        self.expect(mark)?;
        Ok(found)
    }

    /// Reads this keyword. No memory is taken.
    ///
    /// # Errors
    ///
    /// [`ParseStop::Refused`] where another token stands here.
    #[tactic(auto, unfolding(c_parser_grammar::specs::Parser::expect_word))]
    pub fn expect_word(&mut self, word: Keyword) -> Result<(), ParseStop>
        ensures reads { Answers (model.expect_word word self.old) result self.new }
        ensures fault { IfErr result (λ e. e ≡ Refused) }
    {
        if self.sees_word(word) {
            self.take();
            Ok(())
        } else {
            Err(ParseStop::Refused)
        }
    }

    /// Reads the words `const` that stand here.
    #[tactic(auto, using(crate::proofs::Loops::consts_turn, crate::proofs::Loops::consts_end))]
    pub fn consts(&mut self)
        ensures { model.consts (length self.old) self.old ≡ Ok (tt, self.new) }
    {
        for _turn in 0..self.count_left() {
            if !self.sees_word(Keyword::Const) {
                return;
            }
            self.take();
        }
    }
}

/// The first bytes, as many of them as there are.
fn front(s: &[u8], n: usize) -> &[u8]
    ensures { result.now ≡ take n s.now }
{
    if n < s.len() { &s[..n] } else { s }
}

/// What stands behind the first bytes.
fn behind(s: &[u8], n: usize) -> &[u8]
    ensures { result.now ≡ drop n s.now }
{
    if n < s.len() { &s[n..] } else { &[] }
}
