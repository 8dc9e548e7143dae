//! The classes of bytes (C99 5.2.1, 6.4).

ghost use Rattle.std.specs.Prelude.{◌≡◌, ◌≤◌, length};
ghost use Rattle.std.specs.List.{prefix_len};
ghost use Rattle.c_lexer.specs.Bytes as spec;

/// Whether the byte is white space: a space or one of the codes 9 to 13 (C99 6.4).
pub fn is_blank(b: u8) -> bool
    ensures { result ≡ spec.is_blank b }
{
    matches!(b, b' ' | 9..=13)
}

/// Whether the byte is white space that ends no line of a directive: a space or a tab (C99 6.10).
pub fn is_gap(b: u8) -> bool
    ensures { result ≡ spec.is_gap b }
{
    b == b' ' || b == b'\t'
}

/// Whether the byte is a decimal digit (C99 6.4.4.1).
pub fn is_digit(b: u8) -> bool
    ensures { result ≡ spec.is_digit b }
{
    matches!(b, b'0'..=b'9')
}

/// Whether the byte is an octal digit (C99 6.4.4.1).
pub fn is_octal(b: u8) -> bool
    ensures { result ≡ spec.is_octal b }
{
    matches!(b, b'0'..=b'7')
}

/// Whether the byte is a hexadecimal digit, in either case (C99 6.4.4.1).
pub fn is_hex(b: u8) -> bool
    ensures { result ≡ spec.is_hex b }
{
    matches!(b, b'0'..=b'9' | b'A'..=b'F' | b'a'..=b'f')
}

/// Whether the byte can begin a word: a letter or `_` (C99 6.4.2.1).
pub fn is_letter(b: u8) -> bool
    ensures { result ≡ spec.is_letter b }
{
    matches!(b, b'A'..=b'Z' | b'a'..=b'z' | b'_')
}

/// Whether the byte can go on a word: a letter, `_` or a digit (C99 6.4.2.1).
pub fn is_word(b: u8) -> bool
    ensures { result ≡ spec.is_word_byte b }
{
    is_letter(b) || is_digit(b)
}

/// Whether the byte can go on a number as the preprocessor reads it (C99 6.4.8, without signs).
pub fn is_run(b: u8) -> bool
    ensures { result ≡ spec.is_run b }
{
    is_word(b) || b == b'.'
}

/// How many bytes stand in front up to the first line feed.
pub fn line_len(s: &[u8]) -> usize
    ensures value { result ≡ prefix_len spec.is_inner s.now }
    ensures within { result ≤ length s.now }
{
    s.iter().take_while(|b| **b != b'\n').count()
}

/// How many bytes of white space stand in front.
pub fn blank_len(s: &[u8]) -> usize
    ensures value { result ≡ prefix_len spec.is_blank s.now }
    ensures within { result ≤ length s.now }
{
    s.iter().take_while(|b| is_blank(**b)).count()
}

/// How many spaces and tabs stand in front.
pub fn gap_len(s: &[u8]) -> usize
    ensures value { result ≡ prefix_len spec.is_gap s.now }
    ensures within { result ≤ length s.now }
{
    s.iter().take_while(|b| is_gap(**b)).count()
}

/// How many decimal digits stand in front.
pub fn digit_len(s: &[u8]) -> usize
    ensures value { result ≡ prefix_len spec.is_digit s.now }
    ensures within { result ≤ length s.now }
{
    s.iter().take_while(|b| is_digit(**b)).count()
}

/// How many octal digits stand in front.
pub fn octal_len(s: &[u8]) -> usize
    ensures value { result ≡ prefix_len spec.is_octal s.now }
    ensures within { result ≤ length s.now }
{
    s.iter().take_while(|b| is_octal(**b)).count()
}

/// How many hexadecimal digits stand in front.
pub fn hex_len(s: &[u8]) -> usize
    ensures value { result ≡ prefix_len spec.is_hex s.now }
    ensures within { result ≤ length s.now }
{
    s.iter().take_while(|b| is_hex(**b)).count()
}

/// How many bytes stand in front that can go on a word.
pub fn word_len(s: &[u8]) -> usize
    ensures value { result ≡ prefix_len spec.is_word_byte s.now }
    ensures within { result ≤ length s.now }
{
    s.iter().take_while(|b| is_word(**b)).count()
}

/// How many bytes stand in front that can go on a number.
pub fn run_len(s: &[u8]) -> usize
    ensures value { result ≡ prefix_len spec.is_run s.now }
    ensures within { result ≤ length s.now }
{
    s.iter().take_while(|b| is_run(**b)).count()
}
