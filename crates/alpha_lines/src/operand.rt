//! The operands of a line.

ghost use Rattle.std.specs.Prelude.{◌≡◌, ◌<◌, ◌≤◌, IfSome, option_map};
ghost use Rattle.alpha_isa.specs.Lawful.{IsOperand};
ghost use Rattle.alpha_lines.specs.model.Readers as readers;

use crate::cut::{cut, pair};
use crate::number::{displacement, number};
use alpha_isa::insn::Operand;

/// The greatest register, and the greatest literal.
const MOST_REGISTER: u64 = 31;

const MOST_LITERAL: u64 = 255;

/// The greatest number of 32 bits.
const MOST_U32: u64 = 4_294_967_295;

/// The number of 32 bits that the bytes spell.
#[tactic(auto, unfolding(crate::specs::model::Readers::number32_of))]
pub(crate) fn number32(s: &[u8]) -> Option<u32>
    ensures { result ≡ readers.number32_of s.now }
{
    match number(s, MOST_U32) {
        Some(n) => Some(n as u32),
        None => None,
    }
}

/// A register: `$5`.
#[tactic(auto, unfolding(crate::specs::model::Readers::register_of))]
pub(crate) fn register(s: &[u8]) -> Option<u8>
    ensures value { result ≡ readers.register_of s.now }
    ensures within { IfSome result (λ r. r < 32) }
{
    match s {
        [b'$', digits @ ..] => Some(number(digits, MOST_REGISTER)? as u8),
        _ => None,
    }
}

/// A label: `L5`.
#[tactic(auto, unfolding(crate::specs::model::Readers::label_of))]
pub(crate) fn label(s: &[u8]) -> Option<u32>
    ensures { result ≡ readers.label_of s.now }
{
    match s {
        [b'L', digits @ ..] => number32(digits),
        _ => None,
    }
}

/// A second operand: a register or a literal.
#[tactic(auto, unfolding(crate::specs::model::Readers::operand_of))]
pub(crate) fn operand(s: &[u8]) -> Option<Operand>
    ensures value { result ≡ readers.operand_of s.now }
    ensures within { IfSome result (λ o. IsOperand o) }
{
    match s {
        [] => None,
        [b'$', digits @ ..] => Some(Operand::Reg(number(digits, MOST_REGISTER)? as u8)),
        _ => Some(Operand::Literal(number(s, MOST_LITERAL)? as u8)),
    }
}

/// What stands before the mark, which is the last byte and stands nowhere else.
#[tactic(auto, unfolding(crate::specs::model::Readers::closed_by))]
pub(crate) fn closed_by(s: &[u8], mark: u8) -> Option<&[u8]>
    ensures { option_map (λ x. x.now) result ≡ readers.closed_by mark s.now }
{
    let (before, behind) = cut(s, mark)?;
    match behind {
        [] => Some(before),
        _ => None,
    }
}

/// A register and a closing bracket.
#[tactic(auto, unfolding(crate::specs::model::Readers::inner_of))]
fn inner(s: &[u8]) -> Option<u8>
    ensures value { result ≡ readers.inner_of s.now }
    ensures within { IfSome result (λ r. r < 32) }
{
    let inside = closed_by(s, b')')?;
    register(inside)
}

/// A register in brackets: `($27)`.
#[tactic(auto, unfolding(crate::specs::model::Readers::indirect_of))]
pub(crate) fn indirect(s: &[u8]) -> Option<u8>
    ensures value { result ≡ readers.indirect_of s.now }
    ensures within { IfSome result (λ r. r < 32) }
{
    match s {
        [b'(', rest @ ..] => inner(rest),
        _ => None,
    }
}

/// A displacement from a register: `-8($30)`.
#[tactic(auto, unfolding(crate::specs::model::Readers::address_of))]
pub(crate) fn address(s: &[u8]) -> Option<(i16, u8)>
    ensures value { result ≡ readers.address_of s.now }
    ensures within { IfSome result (λ p. p.1 < 32) }
{
    let (front, behind) = cut(s, b'(')?;
    let disp = displacement(front)?;
    let base = inner(behind)?;
    Some((disp, base))
}

/// A register and a label.
#[tactic(auto, unfolding(crate::specs::model::Readers::two_of))]
pub(crate) fn register_and_label(s: &[u8]) -> Option<(u8, u32)>
    ensures value { result ≡ readers.two_of readers.register_of readers.label_of s.now }
    ensures within { IfSome result (λ p. p.0 < 32) }
{
    let (first, second) = pair(s)?;
    let ra = register(first)?;
    let label = label(second)?;
    Some((ra, label))
}

/// A second operand and a register.
#[tactic(auto, unfolding(crate::specs::model::Readers::two_of))]
pub(crate) fn operand_and_register(s: &[u8]) -> Option<(Operand, u8)>
    ensures value { result ≡ readers.two_of readers.operand_of readers.register_of s.now }
    ensures within { IfSome result (λ p. IsOperand p.0 × (p.1 < 32)) }
{
    let (first, second) = pair(s)?;
    let rb = operand(first)?;
    let rc = register(second)?;
    Some((rb, rc))
}
