//! Adapters to the system. They count the calls that fail, and tell nothing of the bytes through the traits;
//! what they do to the reader or writer under them is said by clauses of their own.

ghost use Rattle.std.specs.Prelude.{◌≡◌, ◌↔◌, ◌≤◌, ◌<◌, ◌+◌, true, false, [], Ok, None, IfOk, IsOk, OnOk, OnErr, IsErr, IfErr, length, MatchResult, ⊤};
ghost use Rattle.std.specs.Io.KnownBytes.{Keeps, IsAtEnd};
ghost use Rattle.std.specs.Io.Buffered.{reader_remaining, writer_buffer, writer_contents};
ghost use Rattle.bk_io.specs.Outside.{count_end, faults_after, next_count};
ghost use Rattle.bk_io.specs.Shelf.{faults_after_read, Appends, HasCause};
ghost use Rattle.bk_io.specs.Adapters.{GivesByte, left_by_end, ended_after, Writes, outlet_bytes};
ghost use Rattle.bk_io.specs.model.Steps.{WritesSome, AppendsRead, AppendsPart, AppendsNone};

use crate::outside::{Failed, FileFault, Files, ReadExtent, Sink, Source};
use std::alloc::{AllocError, Global};
use std::io::{BufReader, BufWriter, IsTerminal, Read, Write};
use std::marker::Model;
use std::{fs, rt};

/// How many bytes of a file one read asks for, and how many of the output are held.
const CHUNK: usize = 65536;

/// A reader of the system as a source, read ahead through a buffer. Once it has found the end it does not read again.
#[derive(Drop)]
pub struct HostSource<R: Read + Drop> {
    reader: BufReader<R>,
    has_ended: bool,
    faults: u64,
}

impl<R: Read + Drop> Model for HostSource<R> {
    ghost use Rattle.std.specs.Prelude.{◌≡◌, ◌≤◌, true};
    ghost use Rattle.std.specs.Io.Buffered.{reader_remaining};
    ghost use Rattle.std.specs.Io.KnownBytes.{IsAtEnd};
    ghost use Rattle.bk_io.specs.Outside.{count_end};
    ghost use Rattle.bk_io.specs.Adapters.{Inlet};

    ghost Value = { Inlet };

    ghost view = { λ s. record {
      remaining = reader_remaining R.remaining s.reader;
      has_ended = s.has_ended;
      faults = s.faults;
    } };

    ghost invariant = { λ s. (s.faults ≤ count_end)
        × (s.has_ended ≡ true → IsAtEnd (reader_remaining R.remaining s.reader)) };
}

impl<R: Read + Drop> HostSource<R> {
    /// A source over a reader, as the standard input. The buffer is all that it allocates.
    pub fn new(alloc: Global, reader: R) -> Result<HostSource<R>, AllocError>
        ensures remaining { IfOk result (λ s. Keeps (R.remaining reader) s.remaining) }
        ensures begins { IfOk result (λ s. (s.has_ended ≡ false) × (s.faults ≡ 0)) }
    {
        Ok(HostSource {
            reader: BufReader::new(alloc, reader).map_err(|_| AllocError)?,
            has_ended: false,
            faults: 0,
        })
    }
}

/// Reads a byte, or finds the end.
fn read_byte<R: Read>(reader: &mut R) -> Result<Option<u8>, Failed>
    ensures { GivesByte result (R.remaining reader.old) (R.remaining reader.new) }
{
    let mut byte = [0u8; 1];
    match reader.read(&mut byte) {
        Ok(0) => Ok(None),
        Ok(_) => Ok(Some(byte[0])),
        Err(_) => Err(Failed),
    }
}

impl<R: Read + Drop> Source for HostSource<R> {
    ghost use Rattle.std.specs.Prelude.{None};

    ghost faults = { λ s. s.faults };

    ghost left = { λ s. left_by_end s.has_ended };

    ghost made = { λ _. None };

    fn next(&mut self) -> Result<Option<u8>, Failed>
        ensures gives { GivesByte result self.old.remaining self.new.remaining }
        ensures end { self.old.has_ended ≡ true → (result ≡ Ok None) × (self.new ≡ self.old) }
        ensures ended { self.new.has_ended ≡ ended_after result self.old.has_ended }
        ensures count { self.new.faults ≡ faults_after result self.old.faults }
    {
        if self.has_ended {
            return Ok(None);
        }
        let answer = read_byte(&mut self.reader);
        match answer {
            Ok(None) => self.has_ended = true,
            Ok(Some(_)) => {}
            Err(_) => self.faults = self.faults.saturating_add(1),
        }
        answer
    }

    fn may_wait(&self) -> bool {
        !self.has_ended && self.reader.buffer().is_empty()
    }
}

/// A writer of the system as a sink. It holds up to a number of bytes, and lets them go where there are more, by
/// `flush`, and by `finish`.
#[derive(Drop)]
pub struct HostSink<W: Write + Drop> {
    writer: BufWriter<W>,
    goes_by_lines: bool,
    owes_fault: bool,
    faults: u64,
}

impl<W: Write + Drop> Model for HostSink<W> {
    ghost use Rattle.std.specs.Prelude.{◌≤◌};
    ghost use Rattle.std.specs.Io.Buffered.{writer_inner, writer_buffer};
    ghost use Rattle.bk_io.specs.Outside.{count_end};
    ghost use Rattle.bk_io.specs.Adapters.{Outlet};

    ghost Value = { Outlet };

    ghost view = { λ s. record {
      written = W.contents (writer_inner s.writer);
      held = writer_buffer s.writer;
      owes_fault = s.owes_fault;
      faults = s.faults;
    } };

    ghost invariant = { λ s. s.faults ≤ count_end };
}

impl<W: Write + Drop> HostSink<W> {
    /// A sink over a writer, which holds up to so many bytes. It takes memory for them alone: for none where it
    /// holds none, and each call writes.
    pub fn with_capacity(
        alloc: Global,
        capacity: usize,
        writer: W,
    ) -> Result<HostSink<W>, AllocError>
        ensures empty { IfOk result
            (λ s. s ≡ record { written = W.contents writer; held = []; owes_fault = false; faults = 0 }) }
        ensures succeeds { capacity ≡ 0 → IsOk result }
    {
        match BufWriter::with_capacity(alloc, capacity, writer) {
            Ok(writer) => Ok(HostSink {
                writer,
                goes_by_lines: false,
                owes_fault: false,
                faults: 0,
            }),
            Err(_) => Err(AllocError),
        }
    }
}

impl<W: Write + IsTerminal + Drop> HostSink<W> {
    /// A sink over a writer, as the standard output. It holds up to 65,536 bytes, and on a terminal it lets them go
    /// at each line feed.
    pub fn new(alloc: Global, writer: W) -> Result<HostSink<W>, AllocError>
        ensures { IfOk result
            (λ s. s ≡ record { written = W.contents writer; held = []; owes_fault = false; faults = 0 }) }
    {
        let goes_by_lines = writer.is_terminal();
        let mut sink = HostSink::with_capacity(alloc, CHUNK, writer)?;
        sink.goes_by_lines = goes_by_lines;
        Ok(sink)
    }
}

/// Writes some of the bytes, at least one where there are any. A write of none is a failure.
fn write_some<W: Write>(writer: &mut W, bytes: &[u8]) -> Result<usize, Failed>
    ensures { WritesSome result bytes.now (W.contents writer.old) (W.contents writer.new) }
{
    match writer.write(bytes) {
        Ok(0) | Err(_) => Err(Failed),
        Ok(count) => Ok(count),
    }
}

/// Writes bytes, in as few calls as it takes.
fn write_all<W: Write>(writer: &mut W, bytes: &[u8]) -> Result<(), Failed>
    ensures { Writes result bytes.now (W.contents writer.old) (W.contents writer.new) }
{
    let mut at = 0;
    for _turn in 0..bytes.len() {
        if at == bytes.len() {
            break;
        }
        at += write_some(writer, &bytes[at..])?;
    }
    Ok(())
}

/// Lets go what a buffer holds.
fn let_go<W: Write + Drop>(writer: &mut BufWriter<W>) -> Result<(), Failed>
    ensures keeps { Keeps (writer_contents W.contents writer.old) (writer_contents W.contents writer.new) }
    ensures empty { OnOk result (writer_buffer writer.new ≡ []) }
{
    writer.flush().map_err(|_| Failed)
}

impl<W: Write + Drop> HostSink<W> {
    /// Reports a fault that is owed.
    fn pay(&mut self) -> Result<(), Failed>
        ensures owed { IsErr result ↔ self.old.owes_fault ≡ true }
        ensures paid { self.new ≡ record self.old { owes_fault = false } }
    {
        if self.owes_fault {
            self.owes_fault = false;
            return Err(Failed);
        }
        Ok(())
    }

    /// Puts bytes behind those that are held, unless a fault is owed.
    fn hold(&mut self, bytes: &[u8]) -> Result<(), Failed>
        ensures writes { Writes result bytes.now (outlet_bytes self.old) (outlet_bytes self.new) }
        ensures owed { self.old.owes_fault ≡ true → IsErr result }
        ensures paid { self.new.owes_fault ≡ false }
        ensures count { self.new.faults ≡ self.old.faults }
    {
        self.pay()?;
        write_all(&mut self.writer, bytes)
    }

    /// Puts bytes, and counts a failure.
    fn put_bytes(&mut self, bytes: &[u8]) -> Result<(), Failed>
        ensures writes { Writes result bytes.now (outlet_bytes self.old) (outlet_bytes self.new) }
        ensures owed { self.old.owes_fault ≡ true → IsErr result }
        ensures count { self.new.faults ≡ faults_after result self.old.faults }
    {
        let answer = self.hold(bytes);
        self.count(&answer);
        self.end_line(bytes);
        answer
    }

    /// Counts a call that failed.
    fn count(&mut self, answer: &Result<(), Failed>)
        ensures { self.new ≡ record self.old { faults = faults_after answer.now self.old.faults } }
    {
        if answer.is_err() {
            self.faults = self.faults.saturating_add(1);
        }
    }

    /// Lets go what is held where a line ends in these bytes, on a terminal.
    fn end_line(&mut self, bytes: &[u8])
        ensures keeps { Keeps (outlet_bytes self.old) (outlet_bytes self.new) }
        ensures count { self.new.faults ≡ self.old.faults }
    {
        if self.goes_by_lines && bytes.contains(&b'\n') {
            self.flush();
        }
    }
}

impl<W: Write + Drop> Sink for HostSink<W> {
    ghost use Rattle.std.specs.Prelude.{None, [], ◌∷◌};

    ghost faults = { λ s. s.faults };

    ghost taken = { λ _. None };

    fn put(&mut self, byte: u8) -> Result<(), Failed>
        ensures writes { Writes result (byte ∷ []) (outlet_bytes self.old) (outlet_bytes self.new) }
        ensures owed { self.old.owes_fault ≡ true → IsErr result }
        ensures count { self.new.faults ≡ faults_after result self.old.faults }
    {
        self.put_bytes(&[byte])
    }

    fn put_slice(&mut self, bytes: &[u8]) -> Result<(), Failed>
        ensures writes { Writes result bytes.now (outlet_bytes self.old) (outlet_bytes self.new) }
        ensures owed { self.old.owes_fault ≡ true → IsErr result }
        ensures count { self.new.faults ≡ faults_after result self.old.faults }
    {
        self.put_bytes(bytes)
    }

    fn flush(&mut self)
        ensures keeps { Keeps (outlet_bytes self.old) (outlet_bytes self.new) }
        ensures owed { self.old.owes_fault ≡ true → self.new.owes_fault ≡ true }
        ensures empty { self.new.owes_fault ≡ false → self.new.held ≡ [] }
        ensures count { self.new.faults ≡ self.old.faults }
    {
        if let_go(&mut self.writer).is_err() {
            self.owes_fault = true;
        }
    }

    fn finish(&mut self) -> Result<(), Failed>
        ensures keeps { Keeps (outlet_bytes self.old) (outlet_bytes self.new) }
        ensures owed { self.old.owes_fault ≡ true → IsErr result }
        ensures paid { self.new.owes_fault ≡ false }
        ensures empty { OnOk result (self.new.held ≡ []) }
        ensures count { self.new.faults ≡ faults_after result self.old.faults }
    {
        self.flush();
        let answer = self.pay();
        self.count(&answer);
        answer
    }
}

/// The files of the system.
#[derive(Drop)]
pub struct HostFiles<R: rt::Files + Drop> {
    runtime: R,
    chunk: Vec<u8>,
    faults: u64,
    ghost bounded: { faults ≤ count_end },
    ghost some: { 0 < length chunk.items },
}

impl<R: rt::Files + Drop> HostFiles<R> {
    /// The files that the runtime reaches. The buffer is all that it allocates.
    pub fn new(alloc: Global, runtime: R) -> Result<HostFiles<R>, AllocError>
        ensures count { IfOk result (λ s. s.faults ≡ 0) }
    {
        Ok(HostFiles {
            runtime,
            chunk: vec![in alloc; 0; CHUNK]?,
            faults: 0,
        })
    }
}

/// Reads once, and appends the bytes that came: none only at the end of the file.
fn append_some<R: Read>(
    reader: &mut R,
    chunk: &mut [u8],
    into: &mut Vec<u8>,
) -> Result<usize, FileFault>
    requires { 0 < length chunk.old }
    ensures ok { IfOk result
        (λ n. AppendsPart n into.old.items into.new.items (R.remaining reader.old) (R.remaining reader.new)) }
    ensures end { IfOk result (λ n. n ≡ 0 → IsAtEnd (R.remaining reader.new)) }
    ensures most { IfOk result (λ n. n ≤ length chunk.old) }
    ensures len { length chunk.new ≡ length chunk.old }
    ensures err { OnErr result (into.new.items ≡ into.old.items) }
    ensures cause { IfErr result (λ e. AppendsNone e (R.remaining reader.old) (R.remaining reader.new)) }
    ensures memory { IfErr result HasCause }
{
    let count = reader.read(chunk)?;
    if count > 0 {
        into.extend_from_slice(&chunk[..count])?;
    }
    Ok(count)
}

/// Appends the bytes of a reader until its end or the limit.
fn read_up_to<R: Read>(
    reader: &mut R,
    chunk: &mut [u8],
    into: &mut Vec<u8>,
    limit: u64,
) -> Result<ReadExtent, FileFault>
    requires { 0 < length chunk.old }
    ensures appends { AppendsRead result limit into.old.items into.new.items (R.remaining reader.old)
        (R.remaining reader.new) }
    ensures memory { IfErr result HasCause }
{
    let mut left = limit;
    for _turn in 0..limit {
        let most = left.min(chunk.len() as u64) as usize;
        let count = match append_some(reader, &mut chunk[..most], into) {
            Ok(count) => count,
            Err(fault) => return Err(fault),
        };
        if count == 0 {
            return Ok(ReadExtent::Whole);
        }
        left -= count as u64;
        if left == 0 {
            break;
        }
    }
    Ok(ReadExtent::Cut)
}

/// Opens a file and appends its bytes until its end or the limit.
fn read_file<R: rt::Files>(
    runtime: &R,
    name: &str,
    chunk: &mut [u8],
    into: &mut Vec<u8>,
    limit: u64,
) -> Result<ReadExtent, FileFault>
    requires { 0 < length chunk.old }
    ensures appends { Appends result limit into.old.items into.new.items }
    ensures memory { IfErr result HasCause }
    ensures len { length chunk.new ≡ length chunk.old }
{
    let mut file = fs::open(runtime, name)?;
    read_up_to(&mut file, chunk, into, limit)
}

impl<R: rt::Files + Drop> Files for HostFiles<R> {
    ghost use Rattle.std.specs.Prelude.{None};

    ghost faults = { λ s. s.faults };

    ghost told = { λ _. None };

    fn read(
        &mut self,
        name: &str,
        into: &mut Vec<u8>,
        limit: u64,
    ) -> Result<ReadExtent, FileFault> {
        let chunk = self.chunk.as_mut_slice();
        let answer = read_file(&self.runtime, name, chunk, into, limit);
        if answer == Err(FileFault::Failed) {
            self.faults = self.faults.saturating_add(1);
        }
        answer
    }
}
