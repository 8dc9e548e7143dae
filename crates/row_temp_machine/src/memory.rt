//! The memory of a run: bytes in a row, in which each object has its place.

use anyhow::{Result, ensure};
use std::alloc::Global;

/// The place of the first byte, so that none has the place 0.
const FIRST: u64 = 65_536;

/// The bytes behind each object that belong to none.
const GAP: u64 = 16;

/// The most bytes of a memory.
const MOST: u64 = 16_777_216;

/// What a byte holds before it is written: anything, which no program may ask for.
pub const UNWRITTEN: u8 = 0xa5;

/// The bytes of all objects.
#[derive(Drop)]
pub struct Memory {
    bytes: Vec<u8>,
}

impl Memory {
    /// A memory without objects.
    pub fn new(alloc: Global) -> Memory {
        Memory {
            bytes: Vec::new(alloc),
        }
    }

    /// The place behind all objects, at which the next one begins: a multiple of 16.
    pub fn end(&self) -> u64 {
        FIRST.wrapping_add(self.bytes.len() as u64)
    }

    /// Begins an object of so many bytes, which all hold the same, and answers its place.
    pub fn begin_object(&mut self, size: u64, byte: u8) -> Result<u64> {
        ensure!(size <= MOST, "an object is too large");
        let place = self.end();
        let rounded = (size + 15) / 16 * 16 + GAP;
        let length = (self.bytes.len() as u64).wrapping_add(rounded);
        ensure!(length <= MOST, "the memory is full");
        self.bytes.resize(length as usize, byte)?;
        Ok(place)
    }

    /// Ends all objects from a place on.
    pub fn end_objects(&mut self, place: u64) {
        self.bytes.truncate(place.saturating_sub(FIRST) as usize);
    }

    /// The index of a byte.
    fn index(&self, place: u64) -> Option<usize> {
        let at = place.checked_sub(FIRST)?;
        if at < self.bytes.len() as u64 {
            Some(at as usize)
        } else {
            None
        }
    }

    /// The number that so many bytes at a place are, the least first. None where one of them is no byte of this memory,
    /// or the place is no multiple of their count.
    pub fn load(&self, place: u64, width: u64) -> Option<u64> {
        if width == 0 || place % width != 0 {
            return None;
        }
        let mut word = 0_u64;
        for k in 0..width.min(8) {
            let at = self.index(place.wrapping_add(k))?;
            let byte = self.bytes.get(at).copied()?;
            word |= u64::from(byte) << (8 * k);
        }
        Some(word)
    }

    /// Puts the low bytes of a word at a place. None where a load there gives none.
    pub fn store(&mut self, place: u64, width: u64, word: u64) -> Option<()> {
        if width == 0 || place % width != 0 {
            return None;
        }
        for k in 0..width.min(8) {
            let at = self.index(place.wrapping_add(k))?;
            let byte = self.bytes.get_mut(at)?;
            *byte = (word >> (8 * k) & 0xff) as u8;
        }
        Some(())
    }
}
