//! Generated texts: what is given is a seed and a size, `SEED SIZE`, and what comes the text, or its length and
//! checksum.

use anyhow::{Context, Result};
use std::alloc::Global;
use work_gen::generate;

/// The seed and the size that a row gives.
fn seed_and_size(given: &str) -> Result<(u32, u32)> {
    let (seed, size) = given.split_once(' ').context("a seed and a size")?;
    let seed = seed.parse::<u32>().context("reading the seed")?;
    let size = size.parse::<u32>().context("reading the size")?;
    Ok((seed, size))
}

/// The text that is generated for a seed and a size.
pub fn generated_text(alloc: Global, given: &str) -> Result<Vec<u8>> {
    let (seed, size) = seed_and_size(given)?;
    Ok(generate(alloc, seed, size)?)
}

/// The checksum FNV-1a of 64 bits.
fn checksum(bytes: &[u8]) -> u64 {
    let mut sum = 0xcbf2_9ce4_8422_2325u64;
    for byte in bytes {
        sum = (sum ^ u64::from(*byte)).wrapping_mul(0x100_0000_01b3);
    }
    sum
}

/// The length and the checksum of the text.
pub fn sum(alloc: Global, given: &str) -> Result<Vec<u8>> {
    let bytes = generated_text(alloc, given)?;
    let length = bytes.len();
    let checksum = checksum(bytes.as_slice());
    let line = format!(in alloc; "{length} {checksum:016x}\n")?;
    Ok(line.into_bytes())
}
