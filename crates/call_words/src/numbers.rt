//! The numbers that words give.

ghost use Rattle.std.specs.Prelude.{◌≡◌, ◌≤◌, ◌<◌, ◌^◌, IfSome};
ghost use Rattle.std.specs.Char.{is_ascii_digit};
ghost use Rattle.std.specs.List.{list_all};
ghost use Rattle.alpha_isa.specs.Behave.{IsStack};
ghost use Rattle.call_words.specs.Numbers as spec;

use alpha_isa::limits::{LEAST_STACK, MOST_STACK};

/// The least and the greatest budget.
const LEAST_BUDGET: u64 = 1;

const MOST_BUDGET: u64 = 1_000_000_000_000;

/// The least and the greatest size of a text that is made.
const LEAST_SIZE: u64 = 1;

const MOST_SIZE: u64 = 2_000;

/// How many digits a number may have.
const MOST_DIGITS: usize = 20;

/// Whether bytes are decimal digits.
fn are_digits(bytes: &[u8]) -> bool
    ensures { result ≡ list_all is_ascii_digit bytes.now }
{
    bytes.iter().all(|byte| byte.is_ascii_digit())
}

/// Whether a text is one to twenty decimal digits.
fn is_number(text: &str) -> bool
    ensures { result ≡ spec.is_decimal text.now }
{
    let bytes = text.as_bytes();
    bytes.len() >= 1 && bytes.len() <= MOST_DIGITS && are_digits(bytes)
}

/// A number, where it is from the one to the other.
fn when_within(low: u64, high: u64, n: u64) -> Option<u64>
    ensures { result ≡ spec.when_within low high n }
{
    if low <= n && n <= high { Some(n) } else { None }
}

/// The number of a text, where it is from the one to the other.
fn number_within(low: u64, high: u64, text: &str) -> Option<u64>
    ensures { result ≡ spec.number_within low high text.now }
{
    if !is_number(text) {
        return None;
    }
    match text.parse::<u64>() {
        Ok(n) => when_within(low, high, n),
        Err(_) => None,
    }
}

/// The stack of a text, in bytes: a multiple of 16.
pub(crate) fn stack_at(text: &str) -> Option<u64>
    ensures value { result ≡ spec.stack_at text.now }
    ensures stack { IfSome result IsStack }
{
    let n = number_within(LEAST_STACK, MOST_STACK, text)?;
    if n % 16 == 0 { Some(n) } else { None }
}

/// The budget of a text.
pub(crate) fn budget_at(text: &str) -> Option<u64>
    ensures { result ≡ spec.budget_at text.now }
{
    number_within(LEAST_BUDGET, MOST_BUDGET, text)
}

/// The number of a text, where it is from the one to the other and below 2^32.
fn short_number_within(low: u64, high: u64, text: &str) -> Option<u32>
    requires { high < 2 ^ 32 }
    ensures { result ≡ spec.number_within low high text.now }
{
    let n = number_within(low, high, text)?;
    Some(n as u32)
}

/// The seed of a text, any number below 2^32.
pub(crate) fn text_seed_at(text: &str) -> Option<u32>
    ensures { result ≡ spec.text_seed_at text.now }
{
    short_number_within(0, u64::from(u32::MAX), text)
}

/// The size of a text.
pub(crate) fn text_size_at(text: &str) -> Option<u32>
    ensures { result ≡ spec.text_size_at text.now }
{
    short_number_within(LEAST_SIZE, MOST_SIZE, text)
}
