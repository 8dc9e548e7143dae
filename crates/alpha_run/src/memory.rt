//! The bytes of data and stack, at their addresses.

ghost use Rattle.std.specs.Prelude.{◌≡◌, ℕ, ◌+◌, ◌-◌, ◌<◌, ◌≤◌, List, length, Option, Some, None, option_map, if◌then◌else◌};
ghost use Rattle.std.specs.Bool.{OnFalse};
ghost use Rattle.alpha_isa.specs.Program.{Program};
ghost use Rattle.alpha_isa.specs.State.{State, lies_in, byte_range, with_part};
ghost use Rattle.alpha_isa.specs.State as state;
ghost use Rattle.alpha_isa.specs.Arithmetic.{sign_extension};
ghost use Rattle.std.specs.Int.{w8, w16, w32, w64, from_le_bytes, to_le_bytes};

use crate::arithmetic::extend_long;

/// The data and the stack, and the addresses at which they begin.
#[derive(Debug, Drop)]
pub(crate) struct Memory {
    pub(crate) data_start: u64,
    pub(crate) data: Vec<u8>,
    pub(crate) stack_start: u64,
    pub(crate) stack: Vec<u8>,
}

/// The place of `count` bytes from an address on in a part of the memory, where they lie in it.
fn place_in(address: u64, count: u64, start: u64, size: usize) -> Option<usize>
    ensures { (bytes : List ℕ) → length bytes ≡ size →
        result ≡ (if lies_in address count start bytes then Some (address - start) else None) }
{
    if address < start {
        return None;
    }
    let place = address - start;
    let size = size as u64;
    if place <= size && count <= size - place {
        Some(place as usize)
    } else {
        None
    }
}

/// The `N` bytes from a place on.
fn bytes_from<const N: usize>(bytes: &[u8], place: usize) -> [u8; N]
    requires { place + N ≤ length bytes.now }
    ensures { result ≡ byte_range bytes.now place N }
{
    match bytes[place..].first_chunk::<N>() {
        Some(chunk) => *chunk,
        None => unreachable!(),
    }
}

/// Puts bytes in the place of those that stand there.
fn put_from<const N: usize>(bytes: &mut [u8], place: usize, new: [u8; N])
    requires { place + N ≤ length bytes.old }
    ensures { bytes.new ≡ with_part bytes.old place new.entry }
{
    bytes[place..place + N].copy_from_slice(&new);
}

impl Memory {
    ghost use Rattle.alpha_run.specs.model.MemoryParts.{IsMemoryOf, IsLaidAs, HasBytesOf, stored_in};

    /// The `N` bytes at an address, which is a multiple of `N`, where they lie in the data or the stack.
    pub(crate) fn bytes_at<const N: usize>(&self, address: u64) -> Option<[u8; N]>
        requires { 0 < N }
        ensures { (p : Program) (s : State) → IsMemoryOf p s self.now → result ≡ state.bytes_at p s address N }
    {
        let count = N as u64;
        if address % count != 0 {
            return None;
        }
        if let Some(place) = place_in(address, count, self.data_start, self.data.len()) {
            return Some(bytes_from(self.data.as_slice(), place));
        }
        let place = place_in(address, count, self.stack_start, self.stack.len())?;
        Some(bytes_from(self.stack.as_slice(), place))
    }

    /// Puts bytes at an address under the same condition, and answers whether it did.
    pub(crate) fn put_bytes<const N: usize>(&mut self, address: u64, new: [u8; N]) -> bool
        requires { 0 < N }
        ensures bytes { (p : Program) (s : State) → IsMemoryOf p s self.old →
            stored_in s self.new result ≡ state.with_bytes p s address new.entry }
        ensures laid { IsLaidAs self.old self.new }
        ensures unchanged { OnFalse result (HasBytesOf self.old self.new) }
    {
        let count = N as u64;
        if address % count != 0 {
            return false;
        }
        if let Some(place) = place_in(address, count, self.data_start, self.data.len()) {
            put_from(self.data.as_mut_slice(), place, new);
            return true;
        }
        if let Some(place) = place_in(address, count, self.stack_start, self.stack.len()) {
            put_from(self.stack.as_mut_slice(), place, new);
            return true;
        }
        false
    }

    /// The words that loads of 1, 2, 4 and 8 bytes give.
    pub(crate) fn read_byte(&self, address: u64) -> Option<u64>
        ensures { (p : Program) (s : State) → IsMemoryOf p s self.now →
            result ≡ option_map (from_le_bytes w8) (state.bytes_at p s address 1) }
    {
        let bytes = self.bytes_at::<1>(address)?;
        Some(u64::from(u8::from_le_bytes(bytes)))
    }

    pub(crate) fn read_short(&self, address: u64) -> Option<u64>
        ensures { (p : Program) (s : State) → IsMemoryOf p s self.now →
            result ≡ option_map (from_le_bytes w16) (state.bytes_at p s address 2) }
    {
        let bytes = self.bytes_at::<2>(address)?;
        Some(u64::from(u16::from_le_bytes(bytes)))
    }

    pub(crate) fn read_long(&self, address: u64) -> Option<u64>
        ensures { (p : Program) (s : State) → IsMemoryOf p s self.now →
            result ≡ option_map (λ bytes. sign_extension w32 (from_le_bytes w32 bytes)) (state.bytes_at p s address 4) }
    {
        let bytes = self.bytes_at::<4>(address)?;
        Some(extend_long(u64::from(u32::from_le_bytes(bytes))))
    }

    pub(crate) fn read_quad(&self, address: u64) -> Option<u64>
        ensures { (p : Program) (s : State) → IsMemoryOf p s self.now →
            result ≡ option_map (from_le_bytes w64) (state.bytes_at p s address 8) }
    {
        let bytes = self.bytes_at::<8>(address)?;
        Some(u64::from_le_bytes(bytes))
    }

    /// Stores of 1, 2, 4 and 8 bytes, each with the low bytes of a word. They answer whether they were done.
    pub(crate) fn write_byte(&mut self, address: u64, word: u64) -> bool
        ensures bytes { (p : Program) (s : State) → IsMemoryOf p s self.old →
            stored_in s self.new result ≡ state.with_bytes p s address (to_le_bytes w8 word) }
        ensures laid { IsLaidAs self.old self.new }
        ensures unchanged { OnFalse result (HasBytesOf self.old self.new) }
    {
        self.put_bytes(address, ((word & 0xff) as u8).to_le_bytes())
    }

    pub(crate) fn write_short(&mut self, address: u64, word: u64) -> bool
        ensures bytes { (p : Program) (s : State) → IsMemoryOf p s self.old →
            stored_in s self.new result ≡ state.with_bytes p s address (to_le_bytes w16 word) }
        ensures laid { IsLaidAs self.old self.new }
        ensures unchanged { OnFalse result (HasBytesOf self.old self.new) }
    {
        self.put_bytes(address, ((word & 0xffff) as u16).to_le_bytes())
    }

    pub(crate) fn write_long(&mut self, address: u64, word: u64) -> bool
        ensures bytes { (p : Program) (s : State) → IsMemoryOf p s self.old →
            stored_in s self.new result ≡ state.with_bytes p s address (to_le_bytes w32 word) }
        ensures laid { IsLaidAs self.old self.new }
        ensures unchanged { OnFalse result (HasBytesOf self.old self.new) }
    {
        self.put_bytes(address, ((word & 0xffff_ffff) as u32).to_le_bytes())
    }

    pub(crate) fn write_quad(&mut self, address: u64, word: u64) -> bool
        ensures bytes { (p : Program) (s : State) → IsMemoryOf p s self.old →
            stored_in s self.new result ≡ state.with_bytes p s address (to_le_bytes w64 word) }
        ensures laid { IsLaidAs self.old self.new }
        ensures unchanged { OnFalse result (HasBytesOf self.old self.new) }
    {
        self.put_bytes(address, word.to_le_bytes())
    }
}
