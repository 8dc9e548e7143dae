//! Images as bytes.

ghost use Rattle.std.specs.Prelude.{◌≡◌, ◌+◌, ◌*◌, ◌<◌, ◌^◌, ◌++◌, flat_map, length, IfOk, OnOk};
ghost use Rattle.alpha_isa.specs.Program.{IsLawful};
ghost use Rattle.alpha_isa.specs.ImageFormat.{four_bytes, image_spelling};

use alpha_isa::image::Image;
use std::alloc::{AllocError, Global};

/// The first four bytes of an image.
pub(crate) const MARK: &[u8; 4] = b"MSA1";

/// The version of the format that is written.
const VERSION: u32 = 2;

/// How many bytes stand before the words in that version.
const HEADER_BYTES: usize = 24;

/// The bytes of an image in version 2: the mark, the version, how many words and bytes there are, the
/// entry, how many zeros stand behind the bytes, the words, and the bytes. Each number has four bytes, the
/// lowest first. It fails only where memory is short.
#[tactic(auto, unfolding(alpha_isa::specs::ImageFormat::image_spelling))]
pub fn image_bytes(alloc: Global, image: &Image) -> Result<Vec<u8>, AllocError>
    ensures bytes { IfOk result (λ bytes. bytes.items ≡ image_spelling image.now) }
    ensures lawful { OnOk result (IsLawful image.now) }
{
    // room for all of it at once, so that the vector never grows and takes no more than the bytes
    let size = HEADER_BYTES + 4 * image.words.len() + image.bytes.len();
    let mut bytes = Vec::with_capacity(alloc, size)?;
    bytes.extend_from_slice(MARK)?;
    push_number(&mut bytes, VERSION)?;
    push_number(&mut bytes, image.words.len() as u32)?;
    push_number(&mut bytes, image.bytes.len() as u32)?;
    push_number(&mut bytes, image.entry)?;
    push_number(&mut bytes, image.zeros)?;
    push_numbers(&mut bytes, image.words.as_slice())?;
    bytes.extend_from_slice(image.bytes.as_slice())?;
    Ok(bytes)
}

/// Appends numbers, each in four bytes.
fn push_numbers(bytes: &mut Vec<u8>, numbers: &[u32]) -> Result<(), AllocError>
    requires { length bytes.old.items + 4 * length numbers.now < 2 ^ 64 }
    ensures { OnOk result (bytes.new.items ≡ bytes.old.items ++ flat_map four_bytes numbers.now) }
{
    // the length is set once, which takes less time than to set it with each number
    let start = bytes.len();
    bytes.resize(start + 4 * numbers.len(), 0)?;
    put_numbers(&mut bytes.as_mut_slice()[start..], numbers);
    Ok(())
}

/// Writes numbers over bytes, each in four of them.
fn put_numbers(bytes: &mut [u8], numbers: &[u32])
    requires { length bytes.old ≡ 4 * length numbers.now }
    ensures { bytes.new ≡ flat_map four_bytes numbers.now }
{
    for i in 0..numbers.len() {
        bytes[4 * i..4 * i + 4].copy_from_slice(&numbers[i].to_le_bytes());
    }
}

/// Appends a number in four bytes, the lowest first.
fn push_number(bytes: &mut Vec<u8>, n: u32) -> Result<(), AllocError>
    ensures { OnOk result (bytes.new.items ≡ bytes.old.items ++ four_bytes n) }
{
    bytes.extend_from_slice(&n.to_le_bytes())
}
