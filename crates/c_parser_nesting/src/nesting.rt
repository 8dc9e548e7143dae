//! The nesting of a text: how deeply its constructs stand in one another.

ghost use Rattle.std.specs.Prelude.{◌≡◌, ◌+◌, ◌^◌, ◌≤◌, ◌<◌, [], IfOk, IfErr, OnOk, length, map};
ghost use Rattle.c_parser_nesting.specs.Nesting.{role_of_mark, role_of_word, role_of, nesting};
ghost use Rattle.c_lexer.specs.Limits.{text_limit};
ghost use Rattle.c_parser_nesting.specs.HasNesting.{HasNesting, IsNoTokens, role_of_token};
ghost use Rattle.c_parser_nesting.specs.model.Walking as walking;

use crate::fault::ScanFault;
use crate::scan::tokens;
use c_lexer::{Keyword, Punct, Token, TokenKind};
use std::alloc::{AllocError, Global};

/// What a token is to the nesting.
#[derive(Clone, Copy, Debug, PartialEq, Eq)]
enum Role {
    /// An opening bracket.
    Opens,
    /// A `)` or a `]`.
    Closes,
    /// A `}`.
    ClosesBrace,
    /// A `;` or a `,`.
    Separates,
    /// A word or another mark that may lead into a further construct.
    Counts,
    /// The word `else`.
    Else,
    Plain,
}

fn role_of_mark(mark: Punct) -> Role
    ensures { result ≡ role_of_mark mark }
{
    match mark {
        Punct::LeftParen | Punct::LeftBracket | Punct::LeftBrace => Role::Opens,
        Punct::RightParen | Punct::RightBracket => Role::Closes,
        Punct::RightBrace => Role::ClosesBrace,
        Punct::Semicolon | Punct::Comma => Role::Separates,
        Punct::Colon => Role::Plain,
        _ => Role::Counts,
    }
}

fn role_of_word(word: Keyword) -> Role
    ensures { result ≡ role_of_word word }
{
    match word {
        Keyword::If
        | Keyword::While
        | Keyword::For
        | Keyword::Do
        | Keyword::Switch
        | Keyword::Sizeof => Role::Counts,
        Keyword::Else => Role::Else,
        _ => Role::Plain,
    }
}

fn role_of(kind: TokenKind) -> Role
    ensures { result ≡ role_of kind }
{
    match kind {
        TokenKind::Mark(mark) => role_of_mark(mark),
        TokenKind::Word(word) => role_of_word(word),
        _ => Role::Plain,
    }
}

/// The segments of a group so far.
#[derive(Clone, Copy, Debug)]
struct Group {
    /// The greatest cost of the segments that have ended.
    greatest: u32,
    /// The count of the segment at hand.
    count: u32,
    /// The greatest value of the groups in it.
    value: u32,
}

impl Group {
    const EMPTY: Group = Group {
        greatest: 0,
        count: 0,
        value: 0,
    };

    /// The greatest cost of the segments, if the group ended here.
    fn cost(self) -> u32
        requires { self.count + self.value < 2 ^ 32 }
        ensures { result ≡ walking.cost_of self }
    {
        self.greatest.max(self.count + self.value)
    }

    /// The group with one counted token more.
    fn with_one(self) -> Group
        requires { self.count + 1 < 2 ^ 32 }
        ensures { result ≡ walking.with_one self }
    {
        Group {
            count: self.count + 1,
            ..self
        }
    }

    /// The group with one of this value in the segment at hand.
    fn with_group(self, value: u32) -> Group
        ensures { result ≡ walking.with_group self value }
    {
        Group {
            value: self.value.max(value),
            ..self
        }
    }

    /// The group at the next token: the segment ends where it may and no `else` follows.
    fn at_token(self, ended: bool, role: Role) -> Group
        requires { self.count + self.value < 2 ^ 32 }
        ensures { result ≡ walking.at_token ended role self }
    {
        match role {
            Role::Else => self,
            _ if ended => Group {
                greatest: self.cost(),
                ..Group::EMPTY
            },
            _ => self,
        }
    }
}

/// A walk over tokens.
#[derive(Drop)]
struct Walk {
    /// The open groups around the innermost one, outermost first.
    outer: Vec<Group>,
    group: Group,
    /// Whether the segment at hand ends here, if no `else` follows.
    ended: bool,
}

impl Walk {
    fn new(alloc: Global) -> Walk
        ensures { walking.state_of result ≡ walking.start }
    {
        Walk {
            outer: Vec::new(alloc),
            group: Group::EMPTY,
            ended: false,
        }
    }

    fn open(&mut self) -> Result<(), AllocError>
        requires { self.old.group.count + 1 < 2 ^ 32 }
        ensures { OnOk result (walking.state_of self.new ≡ walking.act Role.Opens
            (walking.state_of self.old).outer self.old.group) }
    {
        self.outer.push(self.group.with_one())?;
        self.group = Group::EMPTY;
        self.ended = false;
        Ok(())
    }

    fn close(&mut self, ends: bool)
        requires { self.old.group.count + self.old.group.value < 2 ^ 32 }
        ensures { walking.state_of self.new ≡ walking.close ends (walking.state_of self.old).outer self.old.group }
    {
        self.ended = false;
        if let Some(around) = self.outer.pop() {
            self.group = around.with_group(self.group.cost());
            self.ended = ends;
        }
    }

    fn step(&mut self, role: Role) -> Result<(), AllocError>
        requires { walking.total_of (walking.state_of self.old) + 1 < 2 ^ 32 }
        ensures { OnOk result (walking.state_of self.new ≡ walking.step role (walking.state_of self.old)) }
    {
        self.group = self.group.at_token(self.ended, role);
        self.ended = false;
        match role {
            Role::Opens => self.open()?,
            Role::Closes => self.close(false),
            Role::ClosesBrace => self.close(true),
            Role::Separates => self.ended = true,
            Role::Counts => self.group = self.group.with_one(),
            Role::Else | Role::Plain => {}
        }
        Ok(())
    }

    /// Ends the groups that are still open.
    fn finish(mut self) -> u32
        requires { walking.total_of (walking.state_of self) < 2 ^ 32 }
        ensures { result ≡ walking.total_of (walking.state_of self) }
    {
        while !self.outer.is_empty() {
            self.close(false);
        }
        self.group.cost()
    }
}

/// The nesting of at most 4,194,304 tokens.
pub fn nesting_of(alloc: Global, tokens: &[Token]) -> Result<u32, AllocError>
    requires { length tokens.now ≤ text_limit }
    ensures { IfOk result (λ n. n ≡ nesting (map role_of_token tokens.now)) }
{
    let mut walk = Walk::new(alloc);
    for token in tokens {
        walk.step(role_of(token.kind))?;
    }
    Ok(walk.finish())
}

/// The nesting of a text of at most 4,194,304 bytes: the most constructs that stand in one another,
/// where each bracket, each operator, and each of the words `if`, `while`, `for`, `do`, `switch` and
/// `sizeof` adds to the segment that it stands in, and a segment ends behind a `;`, a `,` or a `}`.
///
/// # Errors
///
/// [`ScanFault::Lex`] with the first offset at which no token begins (C99 6.4), where there is one,
/// and [`ScanFault::NoMemory`].
pub fn nest(alloc: Global, text: &[u8]) -> Result<u32, ScanFault>
    requires { length text.now ≤ text_limit }
    ensures nesting { IfOk result (HasNesting text.now) }
    ensures fault { IfErr result (IsNoTokens text.now) }
{
    let tokens = tokens(alloc, text)?;
    Ok(nesting_of(alloc, &tokens)?)
}
