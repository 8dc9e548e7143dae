//! The constructs of a list of tokens that are open at once.

ghost use Rattle.std.specs.Prelude.{◌≡◌, ◌≤◌, ◌∷◌, [], IfOk, OnOk, length, map};
ghost use Rattle.c_lexer.specs.Limits.{text_limit};
ghost use Rattle.c_parser_nesting.specs.OpenConstructs as model;
ghost use Rattle.c_parser_nesting.specs.model.Opening.{open_of, head, tail, first, first_kind, behind_first};

use c_lexer::{Keyword, Punct, Token, TokenKind};
use std::alloc::{AllocError, Global};

/// What has begun and not yet ended.
#[derive(Clone, Copy, Debug, PartialEq, Eq)]
enum Construct {
    /// What stands in brackets.
    Brackets,
    /// What stands between a `?` and its `:`.
    Choice,
    /// The statement under an `if`.
    If,
    /// The statement under a `do`.
    Do,
    /// The statement under `else`, `while`, `for` or `switch`.
    Statement,
    /// The operand behind an operator, or behind a `)` as of a cast.
    Operand,
}

/// What ends constructs.
#[derive(Clone, Copy, Debug, PartialEq, Eq)]
enum End {
    /// A closing bracket.
    Bracket,
    /// A `,`.
    Comma,
    /// A `:`.
    Colon,
    /// The end of a statement before `else`.
    BeforeElse,
    /// The end of a statement before `while`.
    BeforeWhile,
    /// Any other end of a statement.
    Statement,
}

/// Whether such an end leaves a construct open, with all those around it.
fn stays(end: End, construct: Construct) -> bool
    ensures { result ≡ model.stays end construct }
{
    match end {
        End::Bracket => false,
        End::Comma => match construct {
            Construct::Operand => false,
            _ => true,
        },
        _ => match construct {
            Construct::Brackets => true,
            _ => false,
        },
    }
}

/// Whether a construct is the outermost one that such an end ends.
fn is_outermost(end: End, construct: Construct) -> bool
    ensures { result ≡ model.is_outermost end construct }
{
    match (end, construct) {
        (End::Bracket, Construct::Brackets) => true,
        (End::Colon, Construct::Choice) => true,
        (End::BeforeElse, Construct::If) => true,
        (End::BeforeWhile, Construct::Do) => true,
        _ => false,
    }
}

/// How a statement ends before a token of this kind.
fn statement_end(next: TokenKind) -> End
    ensures { result ≡ model.statement_end next }
{
    match next {
        TokenKind::Word(Keyword::Else) => End::BeforeElse,
        TokenKind::Word(Keyword::While) => End::BeforeWhile,
        _ => End::Statement,
    }
}

/// A walk over tokens.
#[derive(Drop)]
struct OpenWalk {
    /// The constructs that are open, outermost first.
    opened: Vec<Construct>,
}

impl OpenWalk {
    fn new(alloc: Global) -> OpenWalk
        ensures { open_of result ≡ [] }
    {
        OpenWalk {
            opened: Vec::new(alloc),
        }
    }

    /// How many are open.
    fn count(&self) -> usize
        ensures { result ≡ length (open_of self.now) }
    {
        self.opened.len()
    }

    /// The innermost one.
    fn innermost(&self) -> Option<Construct>
        ensures { result ≡ head (open_of self.now) }
    {
        match self.opened.last() {
            None => None,
            Some(construct) => Some(*construct),
        }
    }

    /// Ends the innermost one.
    fn forget(&mut self)
        ensures { open_of self.new ≡ tail (open_of self.old) }
    {
        self.opened.pop();
    }

    /// Begins a construct.
    fn begin(&mut self, construct: Construct) -> Result<(), AllocError>
        ensures { OnOk result (open_of self.new ≡ construct ∷ open_of self.old) }
    {
        Ok(self.opened.push(construct)?)
    }

    /// Ends constructs.
    #[tactic(auto, using(crate::proofs::Opening::end_of_none, crate::proofs::Opening::end_stays, crate::proofs::Opening::end_last, crate::proofs::Opening::end_goes, crate::proofs::Opening::fewer))]
    fn end(&mut self, end: End)
        ensures { open_of self.new ≡ model.behind_end end (open_of self.old) }
    {
        while let Some(construct) = self.innermost() {
            if stays(end, construct) {
                return;
            }
            self.forget();
            if is_outermost(end, construct) {
                return;
            }
        }
    }

    /// Goes past a mark, behind which a token of this kind stands.
    fn mark(&mut self, mark: Punct, next: TokenKind) -> Result<(), AllocError>
        ensures { OnOk result (open_of self.new ≡ model.behind_mark mark next (open_of self.old)) }
    {
        match mark {
            Punct::LeftParen | Punct::LeftBracket | Punct::LeftBrace => {
                self.begin(Construct::Brackets)
            }
            Punct::RightParen => {
                self.end(End::Bracket);
                self.begin(Construct::Operand)
            }
            Punct::RightBracket => {
                self.end(End::Bracket);
                Ok(())
            }
            Punct::RightBrace => {
                self.end(End::Bracket);
                self.end(statement_end(next));
                Ok(())
            }
            Punct::Semicolon => {
                self.end(statement_end(next));
                Ok(())
            }
            Punct::Comma => {
                self.end(End::Comma);
                Ok(())
            }
            Punct::Question => self.begin(Construct::Choice),
            Punct::Colon => {
                self.end(End::Colon);
                self.begin(Construct::Operand)
            }
            _ => self.begin(Construct::Operand),
        }
    }

    /// Goes past a word.
    fn word(&mut self, word: Keyword) -> Result<(), AllocError>
        ensures { OnOk result (open_of self.new ≡ model.behind_word word (open_of self.old)) }
    {
        match word {
            Keyword::If => self.begin(Construct::If),
            Keyword::Do => self.begin(Construct::Do),
            Keyword::Else | Keyword::While | Keyword::For | Keyword::Switch => {
                self.begin(Construct::Statement)
            }
            Keyword::Sizeof => self.begin(Construct::Operand),
            _ => Ok(()),
        }
    }

    /// Goes past a token, behind which one of this kind stands.
    fn step(&mut self, kind: TokenKind, next: TokenKind) -> Result<(), AllocError>
        ensures { OnOk result (open_of self.new ≡ model.behind_token kind next (open_of self.old)) }
    {
        match kind {
            TokenKind::Mark(mark) => self.mark(mark, next),
            TokenKind::Word(word) => self.word(word),
            _ => Ok(()),
        }
    }
}

/// The kind of the first of these tokens.
fn first(tokens: &[Token]) -> Option<TokenKind>
    ensures { result ≡ first tokens.now }
{
    match tokens {
        [] => None,
        [first, ..] => Some(first.kind),
    }
}

/// The same, or the end.
fn first_kind(tokens: &[Token]) -> TokenKind
    ensures { result ≡ first_kind tokens.now }
{
    match tokens {
        [] => TokenKind::End,
        [first, ..] => first.kind,
    }
}

/// The tokens behind the first one.
fn behind_first(tokens: &[Token]) -> &[Token]
    ensures { result.now ≡ behind_first tokens.now }
{
    match tokens {
        [] => &[],
        [_, rest @ ..] => rest,
    }
}

/// The most constructs of at most 4,194,304 tokens that are open at once: what stands in brackets, what stands between
/// a `?` and its `:`, the operand behind an operator, and the statement under `if`, `else`, `while`, `do`, `for` or
/// `switch`.
#[tactic(auto, using(crate::proofs::Opening::open_done, crate::proofs::Opening::less_left))]
pub fn open_constructs(alloc: Global, tokens: &[Token]) -> Result<usize, AllocError>
    requires { length tokens.now ≤ text_limit }
    ensures { IfOk result (λ n. n ≡ model.most_open_from [] (map model.kind_of_token tokens.now)) }
{
    let mut walk = OpenWalk::new(alloc);
    let mut most = 0;
    let mut left = tokens;
    while let Some(kind) = first(left) {
        left = behind_first(left);
        walk.step(kind, first_kind(left))?;
        most = most.max(walk.count());
    }
    Ok(most)
}
