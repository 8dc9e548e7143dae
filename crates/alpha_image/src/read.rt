//! Images are read from bytes.

ghost use Rattle.std.specs.Prelude.{◌≡◌, ◌+◌, ◌*◌, ◌-◌, ◌≤◌, ◌<◌, ◌++◌, ◌^◌, ◌==◌, List, ℕ, Some, None, IfOk, IfErr, OnOk, IsOk, IsErrOf, IsTrue, MatchResult, MatchOption, slice_get, nat_eq, length, drop, take, flat_map, nat_lt, if◌then◌else◌};
ghost use Rattle.std.specs.Option.{option_eq};
ghost use Rattle.std.specs.Int.{w32, from_le_bytes};
ghost use Rattle.bk_memory.specs.Shortage.{MemoryIsShort};
ghost use Rattle.alpha_isa.specs.Program.{Program, most_words, most_bytes};
ghost use Rattle.alpha_isa.specs.ImageFormat.{mark, IsImage, four_bytes as number_bytes};
ghost use Rattle.alpha_image.specs.declared.read.ImageFault.TheVariants.{NoMemory};
ghost use Rattle.alpha_image.specs.ImageFault as spec;
ghost use Rattle.alpha_image.specs.ReadImage.{IsImageFault};
ghost use Rattle.alpha_image.specs.ImageFault.{differs_at, number_at, version_of, word_count, byte_count, entry_of, zeros_of, text_offset, due_length, version_part_fault, zeros_fault, header_fault, image_fault};

use crate::write::MARK;
use alpha_isa::image::Image;
use alpha_isa::limits::{MOST_BYTES, MOST_WORDS};
use bk_memory::memory_is_short;
use std::alloc::{AllocError, Global};
use thiserror::Error;

/// Why bytes were not read as an image.
#[derive(Clone, Copy, Debug, PartialEq, Eq, Error)]
pub enum ImageFault {
    /// The bytes are no image. They stop being one at this place, in bytes from the first on.
    #[error("no image at byte {at}")]
    BadImage { at: u64 },
    /// There was no memory.
    #[error("there was no memory")]
    NoMemory,
}

impl From<AllocError> for ImageFault {
    ghost from_gives = { λ _ fault. (fault ≡ NoMemory) × MemoryIsShort };

    fn from(error: AllocError) -> ImageFault {
        memory_is_short(error);
        ImageFault::NoMemory
    }
}

/// What the fields of an image say, and where its words begin.
#[derive(Clone, Copy, Debug, PartialEq, Eq)]
struct Header {
    words: u32,
    bytes: u32,
    entry: u32,
    zeros: u32,
    text: usize,
}

/// The number in the four bytes at a place, none where they are not all there.
fn field(bytes: &[u8], at: usize) -> Option<u32>
    requires { at < 2 ^ 32 }
    ensures { MatchOption result (length bytes.now < at + 4)
        (λ n. (at + 4 ≤ length bytes.now) × (n ≡ number_at bytes.now at)) }
{
    if bytes.len() < at + 4 {
        return None;
    }
    Some(number(&bytes[at..at + 4]))
}

/// The number in four bytes.
fn number(bytes: &[u8]) -> u32
    requires { length bytes.now ≡ 4 }
    ensures { result ≡ from_le_bytes w32 bytes.now }
{
    u32::from_le_bytes([bytes[0], bytes[1], bytes[2], bytes[3]])
}

/// Whether a byte stands at a place.
fn has_byte(bytes: &[u8], at: usize, byte: u8) -> bool
    ensures { result ≡ option_eq nat_eq (slice_get bytes.now at) (Some byte) }
{
    bytes.get(at).copied() == Some(byte)
}

/// The first byte that differs from the mark.
fn mark_fault(bytes: &[u8]) -> Option<usize>
    ensures { result ≡ differs_at mark bytes.now 0 }
{
    for (i, due) in MARK.iter().enumerate() {
        if !has_byte(bytes, i, *due) {
            return Some(i);
        }
    }
    None
}

/// The version, or the place of the first byte of the mark or the version that is not right.
fn read_version(bytes: &[u8]) -> Result<u32, usize>
    ensures { MatchResult result
        (λ version. (version_part_fault bytes.now ≡ None) × (version ≡ version_of bytes.now))
        (λ at. version_part_fault bytes.now ≡ Some at) }
{
    if let Some(at) = mark_fault(bytes) {
        return Err(at);
    }
    match field(bytes, 4) {
        None => Err(bytes.len()),
        Some(version @ (1 | 2)) => Ok(version),
        Some(_) => Err(4),
    }
}

/// How many zeros stand behind the bytes of the data, or the place of the field if it is not right.
/// Version 1 has no such field, and no zeros.
fn read_zeros(bytes: &[u8], version: u32, count: u32) -> Result<u32, usize>
    requires { count ≤ most_bytes }
    ensures fault { version ≡ version_of bytes.now → count ≡ byte_count bytes.now → MatchResult result
        (λ zeros. (zeros_fault bytes.now ≡ None) × (zeros ≡ zeros_of bytes.now))
        (λ at. zeros_fault bytes.now ≡ Some at) }
    ensures within { IfOk result (λ zeros. count + zeros ≤ most_bytes) }
{
    if version != 2 {
        return Ok(0);
    }
    let Some(zeros) = field(bytes, 20) else {
        return Err(bytes.len());
    };
    if zeros > MOST_BYTES - count {
        return Err(20);
    }
    Ok(zeros)
}

/// Where the words of a version begin.
fn text_of(version: u32) -> usize
    ensures { result ≡ (if version == 2 then 24 else 20) }
{
    if version == 2 { 24 } else { 20 }
}

/// The fields, or the place of the first that is not right.
#[tactic(auto, unfolding(crate::specs::ImageFault::header_fault))]
fn read_header(bytes: &[u8]) -> Result<Header, usize>
    ensures fault { MatchResult result (λ h. header_fault bytes.now ≡ None) (λ at. header_fault bytes.now ≡ Some at) }
    ensures fields { IfOk result (λ h. (h.words ≡ word_count bytes.now) × (h.bytes ≡ byte_count bytes.now) ×
        (h.entry ≡ entry_of bytes.now) × (h.zeros ≡ zeros_of bytes.now) × (h.text ≡ text_offset bytes.now)) }
    ensures within { IfOk result (λ h. (1 ≤ h.words) × (h.words ≤ most_words) × (h.bytes + h.zeros ≤ most_bytes) ×
        (h.entry < h.words)) }
{
    let version = match read_version(bytes) {
        Ok(version) => version,
        Err(at) => return Err(at),
    };
    let Some(words) = field(bytes, 8) else {
        return Err(bytes.len());
    };
    if words < 1 || u64::from(words) > MOST_WORDS {
        return Err(8);
    }
    let Some(count) = field(bytes, 12) else {
        return Err(bytes.len());
    };
    if count > MOST_BYTES {
        return Err(12);
    }
    let Some(entry) = field(bytes, 16) else {
        return Err(bytes.len());
    };
    if entry >= words {
        return Err(16);
    }
    match read_zeros(bytes, version, count) {
        Ok(zeros) => Ok(Header {
            words,
            bytes: count,
            entry,
            zeros,
            text: text_of(version),
        }),
        Err(at) => Err(at),
    }
}

/// So many numbers of four bytes each, from a place on.
fn read_numbers(
    alloc: Global,
    bytes: &[u8],
    start: usize,
    count: usize,
) -> Result<Vec<u32>, AllocError>
    requires few { count ≤ most_words }
    requires within { start + 4 * count ≤ length bytes.now }
    ensures numbers { IfOk result
        (λ numbers. flat_map number_bytes numbers.items ≡ take (4 * count) (drop start bytes.now)) }
    ensures count { IfOk result (λ numbers. length numbers.items ≡ count) }
{
    let mut numbers = Vec::new(alloc);
    for i in 0..count {
        let at = start + 4 * i;
        numbers.push(number(&bytes[at..at + 4]))?;
    }
    Ok(numbers)
}

/// The place at which the words and bytes behind the fields are too few or too many.
fn length_fault(bytes: &[u8], header: &Header) -> Option<usize>
    requires words { header.now.words ≤ most_words }
    requires bytes { header.now.bytes ≤ most_bytes }
    requires text { header.now.text ≤ 24 }
    ensures fault { header.now.words ≡ word_count bytes.now → header.now.bytes ≡ byte_count bytes.now →
        header.now.text ≡ text_offset bytes.now → result ≡ spec.length_fault bytes.now }
    ensures due { result ≡ None → length bytes.now ≡ header.now.text + 4 * header.now.words + header.now.bytes }
{
    let due = header.text + 4 * header.words as usize + header.bytes as usize;
    if bytes.len() < due {
        Some(bytes.len())
    } else if due < bytes.len() {
        Some(due)
    } else {
        None
    }
}

/// The image that bytes are, of version 1 or 2. `BadImage` comes exactly where they are none, with the
/// place at which they stop being one, and `NoMemory` only where they are one and memory is short.
pub fn read_image(alloc: Global, bytes: &[u8]) -> Result<Image, ImageFault>
    ensures found { IfOk result (λ image. IsImage bytes.now image) }
    ensures good { OnOk result (image_fault bytes.now ≡ None) }
    ensures bad { IfErr result (λ fault. IsImageFault fault bytes.now) }
{
    let header = match read_header(bytes) {
        Ok(header) => header,
        Err(at) => return Err(ImageFault::BadImage { at: at as u64 }),
    };
    match length_fault(bytes, &header) {
        Some(at) => return Err(ImageFault::BadImage { at: at as u64 }),
        None => {}
    }
    let count = header.words as usize;
    let words = match read_numbers(alloc, bytes, header.text, count) {
        Ok(words) => words,
        Err(error) => return Err(ImageFault::from(error)),
    };
    match Vec::from_slice(alloc, &bytes[header.text + 4 * count..]) {
        Ok(bytes) => Ok(Image::new(words, bytes, header.zeros, header.entry)),
        Err(error) => Err(ImageFault::from(error)),
    }
}
