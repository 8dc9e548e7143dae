//! A cursor over the lines of a text.

ghost use Rattle.std.specs.Prelude.{◌≡◌, ◌+◌, ◌∷◌, ◌<◌, length, [], MatchOption};
ghost use Rattle.alpha_text.specs.Wrong.{lines_of, is_ended};

use crate::fault::TextFault;
use std::marker::Model;

/// The bytes that are still to be read, and how many lines stood before them.
#[derive(Drop)]
pub(crate) struct Cursor<'a> {
    rest: &'a [u8],
    count: u64,
}

impl<'a> Model for Cursor<'a> {
    ghost use Rattle.std.specs.Prelude.{List, ℕ, ◌+◌, ◌<◌, ◌^◌, length};

    ghost Value = { List ℕ × ℕ };

    ghost view = { λ c. (c.rest.now, c.count) };

    ghost invariant = { λ c. length c.rest.now + c.count + 1 < 2 ^ 64 };
}

impl<'a> Cursor<'a> {
    ghost use Rattle.std.specs.Prelude.{◌≡◌, ◌≢◌, ◌+◌, ◌∷◌, [], ◌<◌, length, MatchOption, OnSome, OnOk, IfOk, IfErr, IsTrue, ◌↔◌};
    ghost use Rattle.alpha_text.specs.Wrong.{lines_of, is_ended};

    /// A cursor at the beginning of a text.
    pub(crate) fn new(text: &'a [u8]) -> Cursor<'a>
        ensures { result ≡ (text.now, 0) }
    {
        Cursor {
            rest: text,
            count: 0,
        }
    }

    /// The next line, without its line feed. Bytes behind the last line feed are no line.
    pub(crate) fn next_line(&mut self) -> Option<&'a [u8]>
        ensures shorter { OnSome result (length self.new.0 < length self.old.0) }
        ensures line { MatchOption result ((lines_of self.old.0 ≡ []) × (self.new ≡ self.old))
            (λ line. (lines_of self.old.0 ≡ line.now ∷ lines_of self.new.0)
            × (is_ended self.old.0 ≡ is_ended self.new.0) × (self.new.1 ≡ self.old.1 + 1)) }
    {
        match split_line(self.rest) {
            None => None,
            Some((line, behind)) => {
                self.rest = behind;
                self.count += 1;
                Some(line)
            }
        }
    }

    /// The next line, which has to be there.
    pub(crate) fn due_line(&mut self) -> Result<&'a [u8], TextFault>
        ensures shorter { OnOk result (length self.new.0 < length self.old.0) }
        ensures line { IfOk result (λ line. (lines_of self.old.0 ≡ line.now ∷ lines_of self.new.0)
            × (is_ended self.old.0 ≡ is_ended self.new.0) × (self.new.1 ≡ self.old.1 + 1)) }
        ensures none { IfErr result (λ fault. (fault ≡ TextFault.Line (self.old.1 + 1)) × (lines_of self.old.0 ≡ [])) }
    {
        match self.next_line() {
            Some(line) => Ok(line),
            None => Err(TextFault::Line {
                line: self.next_number(),
            }),
        }
    }

    /// Refuses bytes behind the last line.
    pub(crate) fn expect_end(&self) -> Result<(), TextFault>
        ensures end { OnOk result (self.now.0 ≡ []) }
        ensures rest { IfErr result (λ fault. (fault ≡ TextFault.Line (self.now.1 + 1)) × (self.now.0 ≢ [])) }
    {
        if self.is_at_end() {
            Ok(())
        } else {
            Err(TextFault::Line {
                line: self.next_number(),
            })
        }
    }

    /// How many lines have been read.
    pub(crate) fn count(&self) -> u64
        ensures { result ≡ self.now.1 }
    {
        self.count
    }

    /// The number of the line behind those that have been read.
    pub(crate) fn next_number(&self) -> u64
        ensures { result ≡ self.now.1 + 1 }
    {
        self.count + 1
    }

    /// Whether no bytes are left.
    pub(crate) fn is_at_end(&self) -> bool
        ensures { IsTrue result ↔ (self.now.0 ≡ []) }
    {
        self.rest.is_empty()
    }
}

/// The first line without its line feed, and what stands behind it.
#[tactic(auto, using(crate::proofs::Lines::split_at, crate::proofs::Lines::line_none, crate::proofs::Lines::split_ended))]
fn split_line(text: &[u8]) -> Option<(&[u8], &[u8])>
    ensures line { MatchOption result (lines_of text.now ≡ []) (λ p. lines_of text.now ≡ p.0.now ∷ lines_of p.1.now) }
    ensures ended { MatchOption result (lines_of text.now ≡ []) (λ p. is_ended text.now ≡ is_ended p.1.now) }
    ensures shorter { MatchOption result (lines_of text.now ≡ []) (λ p. length p.1.now + 1 < length text.now + 1) }
{
    for (i, b) in text.iter().enumerate() {
        if *b == b'\n' {
            return Some((&text[..i], &text[i + 1..]));
        }
    }
    None
}
