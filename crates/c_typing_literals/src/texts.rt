//! String literals (C99 6.4.5).

ghost use Rattle.std.specs.Prelude.{◌≡◌, ◌≤◌, ◌++◌, OnOk, length};
ghost use Rattle.c_lexer.specs.Limits.{text_limit};
ghost use Rattle.c_typing_literals.specs.Texts.{bytes_behind, text_bytes};

use c_lexer::{TEXT_LIMIT, item_at};
use std::alloc::AllocError;

/// Appends what the items behind an opening quote stand for.
#[tactic(auto, using(crate::proofs::TextItems::text_turn, crate::proofs::TextItems::text_stop))]
fn put_items(bytes: &mut Vec<u8>, s: &[u8]) -> Result<(), AllocError>
    requires { length s.now ≤ text_limit }
    ensures { OnOk result (bytes.new.items ≡ bytes.old.items ++ bytes_behind 0 s.now) }
{
    let mut rest = s;
    while let Some(item) = item_at(b'"', rest) {
        bytes.push(item.value)?;
        rest = &rest[item.len..];
    }
    Ok(())
}

/// Appends the bytes that a string literal stands for, from its spelling with its quotes, without the zero at its end.
/// Where memory is short a front of them is appended.
pub fn put_text(bytes: &mut Vec<u8>, spelling: &[u8]) -> Result<(), AllocError>
    ensures { OnOk result (bytes.new.items ≡ bytes.old.items ++ text_bytes spelling.now) }
{
    match spelling {
        [] => Ok(()),
        [_, rest @ ..] => {
            if rest.len() > TEXT_LIMIT {
                return Ok(());
            }
            put_items(bytes, rest)
        }
    }
}
