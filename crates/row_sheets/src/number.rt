//! Numbers as the files write them.

use anyhow::{Context, Result};
use std::alloc::Global;

/// The byte of two hexadecimal digits.
pub fn hexadecimal(high: u8, low: u8) -> Result<u8> {
    let high = (high as char).to_digit(16).context("no digit")?;
    let low = (low as char).to_digit(16).context("no digit")?;
    Ok((high * 16 + low) as u8)
}

/// The word of eight hexadecimal digits or fewer.
pub fn word(text: &str) -> Result<u32> {
    u32::from_str_radix(text, 16).context(format_args!("reading {text:?}"))
}

/// The word of sixteen hexadecimal digits or fewer.
pub fn quad(text: &str) -> Result<u64> {
    u64::from_str_radix(text, 16).context(format_args!("reading {text:?}"))
}

/// A number in decimal digits, or in hexadecimal ones behind `0x`.
pub fn number(text: &str) -> Result<u64> {
    match text.strip_prefix("0x") {
        Some(digits) => quad(digits),
        None => text
            .parse::<u64>()
            .context(format_args!("reading {text:?}")),
    }
}

/// A number in decimal digits, which may have a sign.
pub fn offset(text: &str) -> Result<i64> {
    text.parse::<i64>()
        .context(format_args!("reading {text:?}"))
}

/// Numbers with a blank between.
pub fn numbers(alloc: Global, text: &str) -> Result<Vec<u64>> {
    let mut numbers = Vec::new(alloc);
    for part in text.split(' ') {
        numbers.push(number(part)?)?;
    }
    Ok(numbers)
}
