//! The words of an image, each beside the line of the assembly that it is the word of.

use anyhow::{Context, Result, bail};
use std::alloc::Global;

/// How many bytes stand before the words of an image.
const HEAD: usize = 24;

/// The address of the first word.
const TEXT: usize = 65_536;

/// The label of the first division routine, behind the functions.
const ROUTINES: &str = "L1:";

/// A line of an assembly, with its word where it has one, and the address of that or of the next word.
#[derive(Drop)]
pub struct Line {
    pub address: usize,
    pub word: Option<u32>,
    pub item: String,
}

/// Whether a line of an assembly is a word. The assembly of this program makes no addresses, which take two words.
fn is_word(item: &str) -> bool {
    !item.starts_with('.') && !item.ends_with(':')
}

/// The words of an image.
fn words_of(alloc: Global, image: &[u8]) -> Result<Vec<u32>> {
    let bytes = image.get(HEAD..).context("an image has a head")?;
    let (words, _) = bytes.as_chunks::<4>();
    let mut found = Vec::new(alloc);
    for word in words {
        found.push(u32::from_le_bytes(*word))?;
    }
    Ok(found)
}

/// The lines of an assembly with their words, of which the image has as many.
pub fn listing_lines(alloc: Global, asm: &str, image: &[u8]) -> Result<Vec<Line>> {
    let words = words_of(alloc, image)?;
    let mut number = 0usize;
    let mut lines = Vec::new(alloc);
    for item in asm.lines() {
        let word = if is_word(item) {
            words.get(number).copied()
        } else {
            None
        };
        lines.push(Line {
            address: number.saturating_mul(4).saturating_add(TEXT),
            word,
            item: item.to_string(alloc)?,
        })?;
        number = number.saturating_add(usize::from(is_word(item)));
    }
    if number != words.len() {
        bail!("the assembly has {number} words, and the image others");
    }
    Ok(lines)
}

/// The lines behind a label, up to the next one.
pub fn lines_behind<'a>(lines: &'a [Line], label: &str) -> &'a [Line] {
    let first = lines
        .iter()
        .position(|line| line.item.as_str() == label)
        .map_or(lines.len(), |at| at.saturating_add(1));
    let rest = lines.get(first..).unwrap_or(&[]);
    let count = rest.iter().take_while(|line| line.word.is_some()).count();
    rest.get(..count).unwrap_or(&[])
}

/// Writes the lines up to the division routines.
pub fn put_listing(rt: &HostRuntime, lines: &[Line]) -> Result<()> {
    for line in lines {
        let item = line.item.as_str();
        if item == ROUTINES {
            break;
        }
        match line.word {
            Some(word) => println!(rt; "  {:x}  {word:08x}  {item}", line.address)?,
            None => println!(rt; "{item}")?,
        }
    }
    Ok(())
}
