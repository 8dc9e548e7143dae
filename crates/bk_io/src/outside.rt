//! The traits of the outside: a source of bytes, a sink of bytes, and a store of named files.

ghost use Rattle.std.specs.Prelude.{◌≡◌, ℕ, ◌↔◌, List, IfOk, IfErr, IfSome, IsOk, IsTrue, IsErrOf, Option, option_map, slice_get};
ghost use Rattle.bk_io.specs.Outside.{next_count, faults_after, left_after, given_by, Gives, taken_after, TakesSlice};
ghost use Rattle.bk_io.specs.Shelf.{Shelf, is_due, file_of, after_call, faults_after_read, Appends, AppendsFile, HasCause};

use bk_memory::memory_is_short;
use std::alloc::AllocError;
use std::io;
use thiserror::Error;

/// A byte could not be read or written.
#[derive(Clone, Copy, Debug, PartialEq, Eq, Error)]
#[error("a byte could not be read or written")]
pub struct Failed;

/// Why a file was not read.
#[derive(Clone, Copy, Debug, PartialEq, Eq, Error)]
pub enum FileFault {
    #[error("the file could not be read")]
    Failed,
    #[error("there was no memory for the file")]
    NoMemory,
}

/// A file that could not be opened or read is a failure, whatever the system says of it.
impl From<io::Error> for FileFault {
    ghost use Rattle.bk_io.specs.declared.outside.FileFault.TheVariants.{Failed};

    ghost from_gives = { λ _ fault. fault ≡ Failed };

    fn from(_error: io::Error) -> FileFault {
        FileFault::Failed
    }
}

/// A list that could not grow is want of memory.
impl From<AllocError> for FileFault {
    ghost use Rattle.bk_memory.specs.Shortage.{MemoryIsShort};
    ghost use Rattle.bk_io.specs.declared.outside.FileFault.TheVariants.{NoMemory};

    ghost from_gives = { λ _ fault. (fault ≡ NoMemory) × MemoryIsShort };

    fn from(error: AllocError) -> FileFault {
        memory_is_short(error);
        FileFault::NoMemory
    }
}

/// How much of a file was read.
#[derive(Clone, Copy, Debug, PartialEq, Eq)]
pub enum ReadExtent {
    /// All of it: it has fewer bytes than the limit.
    Whole,
    /// As many bytes as the limit: it has at least so many.
    Cut,
}

/// A source of bytes.
pub trait Source {
    /// How many faults there were so far, at most 2^64 - 1: one for each call that failed.
    ghost faults: { Self → ℕ };

    /// The bytes that are left, where the source tells them. Once it has found its end, it tells that there are none.
    ghost left: { Self → Option (List ℕ) };

    /// The number of calls so far, at most 2^64 - 1, where the source tells it.
    ghost made: { Self → Option ℕ };

    /// The next byte, or `None` at the end, where it stays. A failed call takes no byte.
    fn next(&mut self) -> Result<Option<u8>, Failed>
        ensures byte { IfOk result (λ byte. IfSome (left self.old) (λ bytes. byte ≡ slice_get bytes 0)) }
        ensures left { left self.new ≡ left_after result (left self.old) }
        ensures made { made self.new ≡ option_map next_count (made self.old) }
        ensures count { faults self.new ≡ faults_after result (faults self.old) };

    /// Whether the next call may wait for bytes that are not there yet. No clause rests on the answer.
    fn may_wait(&self) -> bool {
        true
    }
}

/// A sink of bytes. It may hold what it takes, and lets that go later. One that tells the bytes that it took holds none.
pub trait Sink {
    /// How many faults there were so far, at most 2^64 - 1: one for each call that failed.
    ghost faults: { Self → ℕ };

    /// The bytes that were taken, where the sink tells them.
    ghost taken: { Self → Option (List ℕ) };

    /// Takes a byte at the end. A failed call takes none.
    fn put(&mut self, byte: u8) -> Result<(), Failed>
        ensures taken { taken self.new ≡ taken_after result byte (taken self.old) }
        ensures count { faults self.new ≡ faults_after result (faults self.old) };

    /// Takes bytes at the end, in order. A failed call takes a front of them.
    fn put_slice(&mut self, bytes: &[u8]) -> Result<(), Failed>
        ensures taken { TakesSlice result bytes.now (taken self.old) (taken self.new) }
        ensures count { faults self.new ≡ faults_after result (faults self.old) }
    {
        for &byte in bytes {
            self.put(byte)?;
        }
        Ok(())
    }

    /// Lets go what is held. A write that fails there is kept in mind, and a later `put`, `put_slice` or `finish`
    /// reports it.
    fn flush(&mut self)
        ensures taken { taken self.new ≡ taken self.old }
        ensures count { faults self.new ≡ faults self.old }
    {}

    /// Lets go all that is held, and reports a write that failed and was not reported.
    fn finish(&mut self) -> Result<(), Failed>
        ensures told { IfSome (taken self.old) (λ _. IsOk result × (self.new ≡ self.old)) }
        ensures taken { taken self.new ≡ taken self.old }
        ensures count { faults self.new ≡ faults_after result (faults self.old) }
    {
        Ok(())
    }
}

/// Lets go what an output holds, where the input may wait.
fn flush_before<I: Source, O: Sink>(input: &I, out: &mut O)
    ensures taken { O.taken out.new ≡ O.taken out.old }
    ensures count { O.faults out.new ≡ O.faults out.old }
{
    if input.may_wait() {
        out.flush();
    }
}

/// The next byte of an input, or `None` at its end. What an output holds is let go before the input waits.
pub fn ask<I: Source, O: Sink>(input: &mut I, out: &mut O) -> Result<Option<u8>, Failed>
    ensures byte { IfOk result (λ byte. IfSome (I.left input.old) (λ bytes. byte ≡ slice_get bytes 0)) }
    ensures left { I.left input.new ≡ left_after result (I.left input.old) }
    ensures gives { Gives (given_by result) (I.left input.old) (I.left input.new) }
    ensures made { I.made input.new ≡ option_map next_count (I.made input.old) }
    ensures input_count { I.faults input.new ≡ faults_after result (I.faults input.old) }
    ensures taken { O.taken out.new ≡ O.taken out.old }
    ensures output_count { O.faults out.new ≡ O.faults out.old }
{
    flush_before(input, out);
    input.next()
}

/// A store of named files.
pub trait Files {
    /// How many faults there were so far, at most 2^64 - 1: one for each call that failed.
    ghost faults: { Self → ℕ };

    /// The bytes of each name, the calls so far and those that fail, where the store tells them.
    ghost told: { Self → Option Shelf };

    /// Appends the bytes of a file, at most `limit` of them. After a refusal `into` holds its old bytes
    /// and a front of the file. `NoMemory` comes where `into` could not grow.
    fn read(&mut self, name: &str, into: &mut Vec<u8>, limit: u64) -> Result<ReadExtent, FileFault>
        ensures appends { Appends result limit into.old.items into.new.items }
        ensures file { IfSome (told self.old)
            (λ shelf. AppendsFile result limit (file_of shelf name.now) into.old.items into.new.items) }
        ensures due { IfSome (told self.old)
            (λ shelf. IsErrOf result FileFault.Failed ↔ IsTrue (is_due shelf name.now)) }
        ensures memory { IfErr result HasCause }
        ensures told { told self.new ≡ option_map after_call (told self.old) }
        ensures count { faults self.new ≡ faults_after_read result (faults self.old) };
}
