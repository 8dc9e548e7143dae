//! The lines of the data are read.

ghost use Rattle.std.specs.Prelude.{◌≡◌, ◌<◌, ◌^◌, ◌+◌, ◌*◌, ℕ, List, IfOk, IfSome, IsSomeAnd, Some, option_map, length};
ghost use Rattle.std.specs.List.{All};
ghost use Rattle.alpha_items.specs.declared.item.Fix.{Fix as F};
ghost use Rattle.alpha_lines.specs.Lines.{data_line, hex_line, fix_line};
ghost use Rattle.alpha_lines.specs.model.Data as data_model;

use crate::cut::cut;
use crate::number::number;
use crate::operand::number32;
use alpha_items::item::Fix;
use std::alloc::{AllocError, Global};

/// What stands behind the word that a line begins with.
#[tactic(auto, unfolding(crate::specs::model::Data::behind_of))]
fn behind<'a>(line: &'a [u8], word: &[u8]) -> Option<&'a [u8]>
    ensures { option_map (λ x. x.now) result ≡ data_model.behind_of word.now line.now }
{
    let (first, rest) = cut(line, b' ')?;
    if first == word { Some(rest) } else { None }
}

/// How many bytes the line says that the data has.
#[tactic(auto, unfolding(crate::specs::model::Data::data_of))]
fn data_count(line: &[u8]) -> Option<u64>
    ensures { result ≡ data_model.data_of line.now }
{
    let rest = behind(line, b".data")?;
    number(rest, u64::MAX)
}

/// The fix that the line says.
#[tactic(auto, unfolding(crate::specs::model::Data::fix_of))]
fn fix_said(line: &[u8]) -> Option<Fix>
    ensures { result ≡ data_model.fix_of line.now }
{
    let rest = behind(line, b".fix")?;
    let (first, second) = cut(rest, b' ')?;
    let at = number32(first)?;
    let offset = number32(second)?;
    Some(Fix { at, offset })
}

/// The value of a hexadecimal digit in lower case.
fn hex_value(b: u8) -> Option<u8>
    ensures value { result ≡ data_model.hex_value b }
    ensures within { IfSome result (λ d. d < 16) }
{
    match b {
        b'0'..=b'9' => Some(b - b'0'),
        b'a'..=b'f' => Some(b - b'a' + 10),
        _ => None,
    }
}

/// The byte of two digits, the high one first.
fn hex_byte(high: u8, low: u8) -> Option<u8>
    ensures { result ≡ data_model.hex_pair (data_model.hex_value high) (data_model.hex_value low) }
{
    let high = hex_value(high)?;
    let low = hex_value(low)?;
    Some(high * 16 + low)
}

/// The byte of the first two digits, and the digits behind them.
fn first_byte(digits: &[u8]) -> Option<(u8, &[u8])>
    ensures found { option_map (λ p. (p.0, p.1.now)) result ≡ data_model.hex_first digits.now }
    ensures shorter { IfSome result (λ p. length p.1.now < length digits.now) }
{
    match digits {
        [high, low, behind @ ..] => {
            let byte = hex_byte(*high, *low)?;
            Some((byte, behind))
        }
        _ => None,
    }
}

/// The bytes of pairs of digits.
#[tactic(auto, using(crate::proofs::Answers::bytes_more, crate::proofs::Answers::bytes_none, crate::proofs::Answers::bytes_all))]
fn hex_bytes(alloc: Global, digits: &[u8]) -> Result<Option<Vec<u8>>, AllocError>
    ensures { IfOk result (λ found. option_map (λ v. v.items) found ≡ data_model.hex_of digits.now) }
{
    let mut bytes = Vec::new(alloc);
    let mut rest = digits;
    while !rest.is_empty() {
        let Some((byte, behind)) = first_byte(rest) else {
            return Ok(None);
        };
        bytes.push(byte)?;
        rest = behind;
    }
    Ok(Some(bytes))
}

/// The bytes that the line says.
#[tactic(auto, unfolding(crate::specs::model::Data::hex_line_of))]
fn hex_said(alloc: Global, line: &[u8]) -> Result<Option<Vec<u8>>, AllocError>
    ensures { IfOk result (λ found. option_map (λ v. v.items) found ≡ data_model.hex_line_of line.now) }
{
    match behind(line, b".hex") {
        None => Ok(None),
        Some(digits) => hex_bytes(alloc, digits),
    }
}

/// How many bytes the data has by this line, without its line feed, if it says so.
pub fn read_data(line: &[u8]) -> Option<u64>
    ensures found { IfSome result (λ n. line.now ≡ data_line n) }
    ensures only { (n : ℕ) → n < 2 ^ 64 → line.now ≡ data_line n → result ≡ Some n }
{
    data_count(line)
}

/// The fix of this line, without its line feed, if it is that of a fix.
pub fn read_fix(line: &[u8]) -> Option<Fix>
    ensures found { IfSome result (λ fix. line.now ≡ fix_line fix) }
    ensures only { (fix : F) → fix.at < 2 ^ 32 → fix.offset < 2 ^ 32 → line.now ≡ fix_line fix → result ≡ Some fix }
{
    fix_said(line)
}

/// The bytes of this line, without its line feed, if it is that of bytes of the data. It fails only where
/// memory is short.
pub fn read_hex(alloc: Global, line: &[u8]) -> Result<Option<Vec<u8>>, AllocError>
    ensures found { IfOk result
        (λ found. IfSome found (λ v. All (λ b. b < 256) v.items × (line.now ≡ hex_line v.items))) }
    ensures only { (bytes : List ℕ) → All (λ b. b < 256) bytes → line.now ≡ hex_line bytes →
        IfOk result (λ found. IsSomeAnd found (λ v. v.items ≡ bytes)) }
{
    hex_said(alloc, line)
}
