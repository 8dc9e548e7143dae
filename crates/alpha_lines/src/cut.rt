//! The parts of a line, by the bytes that stand between them.

ghost use Rattle.std.specs.Prelude.{◌≡◌, option_map};
ghost use Rattle.alpha_lines.specs.model.Parts.{cut as cut_of, pair_of};

/// What stands before the first such byte, and what behind it.
pub(crate) fn cut(s: &[u8], mark: u8) -> Option<(&[u8], &[u8])>
    ensures { option_map (λ p. (p.0.now, p.1.now)) result ≡ cut_of mark s.now }
{
    for (i, b) in s.iter().enumerate() {
        if *b == mark {
            return Some((&s[..i], &s[i + 1..]));
        }
    }
    None
}

/// Two operands, with a comma and a blank between them.
#[tactic(auto, unfolding(crate::specs::model::Parts::pair_of))]
pub(crate) fn pair(s: &[u8]) -> Option<(&[u8], &[u8])>
    ensures { option_map (λ p. (p.0.now, p.1.now)) result ≡ pair_of s.now }
{
    let (first, behind) = cut(s, b',')?;
    match behind {
        [b' ', second @ ..] => Some((first, second)),
        _ => None,
    }
}
