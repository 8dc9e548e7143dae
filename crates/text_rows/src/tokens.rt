//! Texts with their tokens.

use anyhow::{Result, ensure};
use c_lexer::{Lexer, TEXT_LIMIT, TokenKind};
use row_sheets::escape::unescape;
use std::alloc::Global;

fn letter(kind: TokenKind) -> char {
    match kind {
        TokenKind::Name => 'N',
        TokenKind::Number => 'I',
        TokenKind::Char => 'C',
        TokenKind::Text => 'T',
        TokenKind::Word(_) => 'W',
        TokenKind::Mark(_) => 'M',
        TokenKind::End => 'E',
    }
}

/// The tokens of a text with their places and lengths, up to its end or its fault, which is asked for
/// twice.
pub fn list(alloc: Global, given: &str) -> Result<Vec<u8>> {
    let text = unescape(alloc, given)?;
    ensure!(text.len() <= TEXT_LIMIT, "a text that is too long");
    let mut lexer = Lexer::new(text.as_slice());
    let mut list = String::new(alloc);
    for _ in 0..=TEXT_LIMIT {
        let answer = lexer.next();
        match answer {
            Ok(token) if token.kind != TokenKind::End => {
                let letter = letter(token.kind);
                list.push_str(&format!(in alloc; "{letter}{}+{} ", token.at, token.len)?)?;
                continue;
            }
            Ok(token) => list.push_str(&format!(in alloc; "E{}\n", token.at)?)?,
            Err(fault) => list.push_str(&format!(in alloc; "F{}\n", fault.at)?)?,
        }
        ensure!(lexer.next() == answer, "another answer at the second time");
        break;
    }
    Ok(list.into_bytes())
}

/// The kind and the length of the token that a text begins with.
pub fn first(alloc: Global, given: &str) -> Result<Vec<u8>> {
    let text = unescape(alloc, given)?;
    ensure!(text.len() <= TEXT_LIMIT, "a text that is too long");
    let shown = match Lexer::new(text.as_slice()).next() {
        Ok(token) => format!(in alloc; "{:?} {}\n", token.kind, token.len)?,
        Err(fault) => format!(in alloc; "F{}\n", fault.at)?,
    };
    Ok(shown.into_bytes())
}
