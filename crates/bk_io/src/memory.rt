//! Sources, sinks and files in memory, which tell what they hold and which of their calls fail.

ghost use Rattle.std.specs.Prelude.{◌≡◌, ◌↔◌, [], IfOk, IsTrue, IsErr, IfErr, Some, IsNone, IfSome, is_ok, not, slice_get, map, Contains, option_copied, bytes_eq};
ghost use Rattle.std.specs.Map.{lookup};
ghost use Rattle.bk_io.specs.Outside.{next_count, faults_after, left_after, taken_after, TakesSlice};
ghost use Rattle.bk_io.specs.Shelf.{is_due, file_of, Appends, AppendsFile, HasCause};
ghost use Rattle.bk_io.specs.Memory.{shelf_at, shelf_of, name_and_bytes, is_put_due, after_put, after_puts, all_put};

use crate::outside::{Failed, FileFault, Files, ReadExtent, Sink, Source};
use std::alloc::{AllocError, Global};
use std::marker::Model;

/// The bytes of a list, in order.
#[derive(Debug, Drop)]
pub struct MemSource {
    bytes: Vec<u8>,
    next: usize,
    fails: Vec<u64>,
    made: u64,
    faults: u64,
}

impl Model for MemSource {
    ghost use Rattle.std.specs.Prelude.{◌≤◌, drop, vec_len};
    ghost use Rattle.bk_io.specs.Memory.{Stream};

    ghost Value = { Stream };

    ghost view = { λ s. record { left = drop s.next s.bytes.items; failing = s.fails.items; made = s.made; faults = s.faults } };

    ghost invariant = { λ s. s.next ≤ vec_len s.bytes };
}

impl MemSource {
    /// A source of these bytes. The calls with the numbers in `fails`, counted from 0, fail.
    pub fn new(bytes: Vec<u8>, fails: Vec<u64>) -> MemSource
        ensures { result ≡ record { left = bytes.items; failing = fails.items; made = 0; faults = 0 } }
    {
        MemSource {
            bytes,
            next: 0,
            fails,
            made: 0,
            faults: 0,
        }
    }
}

impl Source for MemSource {
    ghost faults = { λ s. s.faults };

    ghost left = { λ s. Some s.left };

    ghost made = { λ s. Some s.made };

    fn next(&mut self) -> Result<Option<u8>, Failed>
        ensures byte { IfOk result (λ byte. byte ≡ slice_get self.old.left 0) }
        ensures left { Some self.new.left ≡ left_after result (Some self.old.left) }
        ensures made { self.new.made ≡ next_count self.old.made }
        ensures failing { self.new.failing ≡ self.old.failing }
        ensures due { IsErr result ↔ Contains self.old.failing self.old.made }
        ensures count { self.new.faults ≡ faults_after result self.old.faults }
    {
        let call = self.made;
        self.made = self.made.saturating_add(1);
        if self.fails.contains(&call) {
            self.faults = self.faults.saturating_add(1);
            return Err(Failed);
        }
        match self.bytes.get(self.next).copied() {
            None => Ok(None),
            Some(byte) => {
                self.next += 1;
                Ok(Some(byte))
            }
        }
    }
}

/// A list of bytes that grows up to a room that was set aside.
#[derive(Debug, Drop)]
pub struct MemSink {
    bytes: Vec<u8>,
    room: usize,
    fails: Vec<u64>,
    made: u64,
    faults: u64,
}

impl Model for MemSink {
    ghost use Rattle.std.specs.Prelude.{◌≤◌, vec_len, vec_capacity};
    ghost use Rattle.bk_io.specs.Memory.{Bin};

    ghost Value = { Bin };

    ghost view = { λ s. record {
      taken = s.bytes.items;
      room = s.room;
      failing = s.fails.items;
      made = s.made;
      faults = s.faults;
    } };

    ghost invariant = { λ s. (vec_len s.bytes ≤ s.room) × (s.room ≤ vec_capacity s.bytes) };
}

impl MemSink {
    /// A sink with room for so many bytes. The calls with the numbers in `fails`, counted from 0, fail,
    /// and so does each put past the room.
    pub fn new(alloc: Global, room: u64, fails: Vec<u64>) -> Result<MemSink, AllocError>
        ensures { IfOk result
            (λ s. s ≡ record { taken = []; room = room; failing = fails.items; made = 0; faults = 0 }) }
    {
        let room = room as usize;
        Ok(MemSink {
            bytes: Vec::with_capacity(alloc, room)?,
            room,
            fails,
            made: 0,
            faults: 0,
        })
    }

    /// The bytes that were taken.
    pub fn taken_bytes(&self) -> &[u8]
        ensures { result.now ≡ self.now.taken }
    {
        self.bytes.as_slice()
    }
}

impl Sink for MemSink {
    ghost faults = { λ s. s.faults };

    ghost taken = { λ s. Some s.taken };

    fn put(&mut self, byte: u8) -> Result<(), Failed>
        ensures puts { self.new ≡ after_put self.old byte }
        ensures due { is_ok result ≡ not (is_put_due self.old) }
        ensures taken { Some self.new.taken ≡ taken_after result byte (Some self.old.taken) }
        ensures count { self.new.faults ≡ faults_after result self.old.faults }
    {
        let call = self.made;
        self.made = self.made.saturating_add(1);
        if self.fails.contains(&call) || self.bytes.len() == self.room {
            self.faults = self.faults.saturating_add(1);
            return Err(Failed);
        }
        self.bytes.push_reserved(byte);
        Ok(())
    }

    fn put_slice(&mut self, bytes: &[u8]) -> Result<(), Failed>
        ensures puts { self.new ≡ after_puts self.old bytes.now }
        ensures all { is_ok result ≡ all_put self.old bytes.now }
        ensures taken { TakesSlice result bytes.now (Some self.old.taken) (Some self.new.taken) }
        ensures count { self.new.faults ≡ faults_after result self.old.faults }
    {
        for &byte in bytes {
            self.put(byte)?;
        }
        Ok(())
    }
}

/// Named files in memory.
#[derive(Debug, Drop)]
pub struct MemFiles {
    files: Vec<(String, Vec<u8>)>,
    fails: Vec<u64>,
    made: u64,
    faults: u64,
}

impl Model for MemFiles {
    ghost use Rattle.std.specs.Prelude.{◌≤◌, map};
    ghost use Rattle.bk_io.specs.Outside.{count_end};
    ghost use Rattle.bk_io.specs.Memory.{Drawer, name_and_bytes};

    ghost Value = { Drawer };

    ghost view = { λ s. record { files = map name_and_bytes s.files.items; failing = s.fails.items; made = s.made; faults = s.faults } };

    ghost invariant = { λ s. s.faults ≤ count_end };
}

impl MemFiles {
    ghost use Rattle.std.specs.Prelude.{map};

    /// The files with these names and bytes; the first entry of a name counts. The calls with the
    /// numbers in `fails`, counted from 0, fail, and so does each read of a name that is not there.
    pub fn new(files: Vec<(String, Vec<u8>)>, fails: Vec<u64>) -> MemFiles
        ensures { result ≡ record { files = map name_and_bytes files.items; failing = fails.items; made = 0; faults = 0 } }
    {
        MemFiles {
            files,
            fails,
            made: 0,
            faults: 0,
        }
    }
}

/// The bytes of the first file with this name.
fn find<'a>(files: &'a [(String, Vec<u8>)], name: &str) -> Option<&'a [u8]>
    ensures { option_copied result ≡ lookup (bytes_eq name.now) (map name_and_bytes files.now) }
{
    for file in files {
        if name == file.0.as_str() {
            return Some(file.1.as_slice());
        }
    }
    None
}

/// The bytes of a file, unless the call with this number is due to fail.
fn open<'a>(
    files: &'a [(String, Vec<u8>)],
    fails: &[u64],
    call: u64,
    name: &str,
) -> Option<&'a [u8]>
    ensures due { IsNone result ↔ IsTrue (is_due (shelf_at (map name_and_bytes files.now) fails.now call) name.now) }
    ensures file { IfSome result (λ file. file.now ≡ file_of (shelf_at (map name_and_bytes files.now) fails.now call) name.now) }
{
    if fails.contains(&call) {
        return None;
    }
    find(files, name)
}

impl Files for MemFiles {
    ghost faults = { λ s. s.faults };

    ghost told = { λ s. Some (shelf_of s) };

    fn read(
        &mut self,
        name: &str,
        into: &mut Vec<u8>,
        limit: u64,
    ) -> Result<ReadExtent, FileFault> {
        let call = self.made;
        self.made = self.made.saturating_add(1);
        let there = open(self.files.as_slice(), self.fails.as_slice(), call, name);
        let Some(file) = there else {
            self.faults = self.faults.saturating_add(1);
            return Err(FileFault::Failed);
        };
        append(into, file, limit)
    }
}

/// Appends the front of a file, at most `limit` bytes of it.
fn append(into: &mut Vec<u8>, file: &[u8], limit: u64) -> Result<ReadExtent, FileFault>
    ensures appends { Appends result limit into.old.items into.new.items }
    ensures file { AppendsFile result limit file.now into.old.items into.new.items }
    ensures memory { IfErr result (λ e. (e ≡ FileFault.NoMemory) × HasCause e) }
{
    let limit = limit as usize;
    let (front, got) = if file.len() < limit {
        (file, ReadExtent::Whole)
    } else {
        (&file[..limit], ReadExtent::Cut)
    };
    into.extend_from_slice(front)?;
    Ok(got)
}
