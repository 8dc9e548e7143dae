//! Character constants (C99 6.4.4.4).

ghost use Rattle.std.specs.Prelude.{◌≡◌, ◌≤◌, length};
ghost use Rattle.c_lexer.specs.Limits.{text_limit};
ghost use Rattle.c_typing_literals.specs.Characters as spec;

use bk_arithmetic::integer_type::IntegerType;
use c_lexer::{TEXT_LIMIT, item_at};

fn behind_quote(s: &[u8]) -> Option<u64>
    requires { length s.now ≤ text_limit }
    ensures { result ≡ spec.behind_quote s.now }
{
    match s {
        [] => None,
        [_, rest @ ..] => match item_at(b'\'', rest) {
            None => None,
            Some(item) => Some(IntegerType::Char.convert(IntegerType::Int, u64::from(item.value))),
        },
    }
}

/// What a character constant stands for, from its spelling with its quotes: a word of the type `int`, which has the
/// value of the byte as a signed `char`. `None` where the spelling is no character constant.
pub fn character(spelling: &[u8]) -> Option<u64>
    ensures { result ≡ spec.character spelling.now }
{
    if spelling.len() > TEXT_LIMIT {
        return None;
    }
    behind_quote(spelling)
}
