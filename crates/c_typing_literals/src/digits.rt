//! Digits and the numbers that they spell (C99 6.4.4.1).

ghost use Rattle.std.specs.Prelude.{◌≡◌, ◌<◌, ◌≤◌, length};
ghost use Rattle.std.specs.List.{prefix_len};
ghost use Rattle.c_lexer.specs.Bytes as bytes;
ghost use Rattle.c_lexer.specs.Literals.{digit_value, value_in};
ghost use Rattle.c_typing_literals.specs.Integers.{word_of_number};
ghost use Rattle.c_typing_literals.specs.model.Digits.{next_value};

fn is_digit(b: u8) -> bool
    ensures { result ≡ bytes.is_digit b }
{
    matches!(b, b'0'..=b'9')
}

fn is_octal(b: u8) -> bool
    ensures { result ≡ bytes.is_octal b }
{
    matches!(b, b'0'..=b'7')
}

fn is_hex(b: u8) -> bool
    ensures { result ≡ bytes.is_hex b }
{
    matches!(b, b'0'..=b'9' | b'A'..=b'F' | b'a'..=b'f')
}

/// How many decimal digits stand in front.
pub(crate) fn digit_len(s: &[u8]) -> usize
    ensures value { result ≡ prefix_len bytes.is_digit s.now }
    ensures within { result ≤ length s.now }
{
    s.iter().take_while(|b| is_digit(**b)).count()
}

/// How many octal digits stand in front.
pub(crate) fn octal_len(s: &[u8]) -> usize
    ensures value { result ≡ prefix_len bytes.is_octal s.now }
    ensures within { result ≤ length s.now }
{
    s.iter().take_while(|b| is_octal(**b)).count()
}

/// How many hexadecimal digits stand in front.
pub(crate) fn hex_len(s: &[u8]) -> usize
    ensures value { result ≡ prefix_len bytes.is_hex s.now }
    ensures within { result ≤ length s.now }
{
    s.iter().take_while(|b| is_hex(**b)).count()
}

/// The value of a digit, also of a hexadecimal one.
#[tactic(auto, unfolding(c_lexer::specs::Literals::digit_value))]
fn digit_value(b: u8) -> u8
    ensures { result ≡ digit_value b }
{
    if is_digit(b) {
        b - b'0'
    } else if b >= b'a' {
        b - 87
    } else {
        b.saturating_sub(55)
    }
}

/// A number with one digit more, as long as a word holds it.
#[tactic(auto, unfolding(crate::specs::Integers::word_of_number))]
fn with_digit(base: u64, value: Option<u64>, b: u8) -> Option<u64>
    requires few { base ≤ 16 }
    ensures { result ≡ next_value base value b }
{
    match value {
        None => None,
        Some(value) => {
            let next = u128::from(value) * u128::from(base) + u128::from(digit_value(b));
            if next <= u128::from(u64::MAX) {
                Some(next as u64)
            } else {
                None
            }
        }
    }
}

/// The number that digits spell in a base, where a word of 64 bits holds it.
pub(crate) fn value_of(base: u64, digits: &[u8]) -> Option<u64>
    requires some { 0 < base }
    requires few { base ≤ 16 }
    ensures { result ≡ word_of_number (value_in base digits.now) }
{
    let mut value = Some(0);
    for b in digits {
        value = with_digit(base, value, *b);
    }
    value
}
