//! All tokens of a text.

ghost use Rattle.std.specs.Prelude.{◌≤◌, IfOk, IfErr, length, vec_len};
ghost use Rattle.c_lexer.specs.Limits.{text_limit};
ghost use Rattle.c_parser_nesting.specs.HasNesting.{IsTokens, IsNoTokens};

use crate::fault::ScanFault;
use c_lexer::{Lexer, Token, TokenKind};
use std::alloc::Global;

/// The tokens of a text of at most 4,194,304 bytes (C99 6.4).
///
/// # Errors
///
/// [`ScanFault::Lex`] with the first offset at which no token begins, and [`ScanFault::NoMemory`].
pub fn tokens(alloc: Global, text: &[u8]) -> Result<Vec<Token>, ScanFault>
    requires { length text.now ≤ text_limit }
    ensures all { IfOk result (λ tokens. IsTokens text.now tokens.items) }
    ensures count { IfOk result (λ tokens. vec_len tokens ≤ length text.now) }
    ensures fault { IfErr result (IsNoTokens text.now) }
{
    let mut lexer = Lexer::new(text);
    let mut tokens = Vec::new(alloc);
    loop {
        let token = lexer.next()?;
        if let TokenKind::End = token.kind {
            return Ok(tokens);
        }
        tokens.push(token)?;
    }
}
