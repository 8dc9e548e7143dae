//! What no clause can say: what the system gives and takes, and that calls succeed where memory is left.
//!
//! Each test is proved, and costs by its assertions and exits: so a test is a table of steps, and asserts once that each
//! comes out as it should.

use crate::empty::EmptySource;
use crate::host::{HostFiles, HostSink, HostSource};
use crate::memory::{MemFiles, MemSink, MemSource};
use crate::outside::{Failed, FileFault, Files, ReadExtent, Sink, Source, ask};
use std::alloc::{AllocError, AllocGlobal, Global};
use std::fs::File;
use std::io::{self, ErrorKind, IsTerminal, Read, Write};
use std::test::Fail;
use std::{fs, rt};

/// A reader whose reads fail.
#[derive(Drop)]
struct BrokenReader;

impl Read for BrokenReader {
    fn read(&mut self, _buf: &mut [u8]) -> io::Result<usize> {
        Err(io::Error::from(ErrorKind::Other))
    }
}

/// A writer that has no room.
#[derive(Drop)]
struct Full;

impl Write for Full {
    fn write(&mut self, _buf: &[u8]) -> io::Result<usize> {
        Ok(0)
    }

    fn flush(&mut self) -> io::Result<()> {
        Ok(())
    }
}

/// A file that says that it is a terminal.
#[derive(Drop)]
struct Screen {
    file: File,
}

impl Write for Screen {
    fn write(&mut self, buf: &[u8]) -> io::Result<usize> {
        self.file.write(buf)
    }

    fn flush(&mut self) -> io::Result<()> {
        self.file.flush()
    }
}

impl IsTerminal for Screen {
    fn is_terminal(&self) -> bool {
        true
    }
}

/// A writer that can be called once.
#[derive(Drop)]
struct Once {
    is_written: bool,
}

impl Write for Once {
    fn write(&mut self, buf: &[u8]) -> io::Result<usize> {
        if self.is_written {
            return Err(io::Error::from(ErrorKind::Other));
        }
        self.is_written = true;
        Ok(buf.len())
    }

    fn flush(&mut self) -> io::Result<()> {
        Ok(())
    }
}

impl IsTerminal for Once {
    fn is_terminal(&self) -> bool {
        false
    }
}

/// A step of a test, with what is wanted of it.
#[derive(Clone, Copy)]
enum Step {
    /// A byte is put, and taken or not.
    Put(u8, bool),
    /// These bytes are put at once, and taken.
    PutSlice(&'static [u8]),
    /// So many bytes are put, of which each tells its place, and all are taken.
    PutPlaces(u32),
    Flush,
    /// The output is finished, without a fault or with one.
    Finish(bool),
    /// The input gives this, asked in the way that lets the output go.
    Ask(Option<u8>),
    /// The file of the output has so many bytes.
    HasLen(usize),
    /// The file of the output has these bytes.
    Has(&'static [u8]),
    /// Each byte of the output's file tells its place.
    HasPlaces,
    /// The file of the output is removed.
    Remove,
}

/// Puts so many bytes, of which each tells its place. Whether each was taken.
fn puts_places<O: Sink>(out: &mut O, count: u32) -> bool {
    for at in 0..count {
        if out.put((at % 251) as u8).is_err() {
            return false;
        }
    }
    true
}

/// Whether each of these bytes tells its place.
fn are_places(bytes: &[u8]) -> bool {
    for (at, byte) in bytes.iter().enumerate() {
        if *byte != (at % 251) as u8 {
            return false;
        }
    }
    true
}

/// Whether what a file holds is as a step wants it.
fn holds<R: rt::Files + AllocGlobal>(rt: &R, name: &str, step: Step) -> bool {
    match fs::read(rt, name) {
        Ok(bytes) => match step {
            Step::HasLen(len) => bytes.len() == len,
            Step::Has(wanted) => bytes.as_slice() == wanted,
            _ => are_places(bytes.as_slice()),
        },
        Err(_) => false,
    }
}

/// Whether a step comes out as it should.
fn goes<R: rt::Files + AllocGlobal, I: Source, O: Sink>(
    rt: &R,
    name: &str,
    input: &mut I,
    out: &mut O,
    step: Step,
) -> bool {
    match step {
        Step::Put(byte, is_taken) => out.put(byte).is_ok() == is_taken,
        Step::PutSlice(bytes) => out.put_slice(bytes).is_ok(),
        Step::PutPlaces(count) => puts_places(out, count),
        Step::Flush => {
            out.flush();
            true
        }
        Step::Finish(is_whole) => out.finish().is_ok() == is_whole,
        Step::Ask(wanted) => ask(input, out) == Ok(wanted),
        Step::HasLen(_) | Step::Has(_) | Step::HasPlaces => holds(rt, name, step),
        Step::Remove => fs::remove_file(rt, name).is_ok(),
    }
}

/// Whether each of these steps comes out as it should, over an output whose file has a name.
fn all_go<R: rt::Files + AllocGlobal, I: Source, O: Sink>(
    rt: &R,
    name: &str,
    input: &mut I,
    out: &mut O,
    steps: &[Step],
) -> bool {
    for step in steps {
        if !goes(rt, name, input, out, *step) {
            return false;
        }
    }
    true
}

/// Whether a source gives these bytes, ends and faults, in order.
fn gives<I: Source>(input: &mut I, wanted: &[Result<Option<u8>, Failed>]) -> bool {
    for want in wanted {
        if input.next() != *want {
            return false;
        }
    }
    true
}

/// A read of a file, with its limit, what is answered and the bytes that are appended.
type Reading = (
    &'static str,
    u64,
    Result<ReadExtent, FileFault>,
    &'static [u8],
);

/// Whether a read comes out as it should.
fn reads<F: Files>(alloc: Global, files: &mut F, reading: Reading) -> bool {
    let (name, limit, wanted, bytes) = reading;
    let mut into = Vec::new(alloc);
    files.read(name, &mut into, limit) == wanted && into.as_slice() == bytes
}

/// Whether each of these reads comes out as it should.
fn all_read<F: Files>(alloc: Global, files: &mut F, readings: &[Reading]) -> bool {
    for reading in readings {
        if !reads(alloc, files, *reading) {
            return false;
        }
    }
    true
}

/// A file of these bytes as a source. Its name is removed.
fn file_source(rt: &HostRuntime, name: &str, bytes: &[u8]) -> Result<HostSource<File>, Fail> {
    fs::write(rt, name, bytes)?;
    let file = File::open(rt, name)?;
    fs::remove_file(rt, name)?;
    Ok(HostSource::new(rt.alloc(), file)?)
}

/// A new file as a sink.
fn file_sink(rt: &HostRuntime, name: &str) -> Result<HostSink<File>, Fail> {
    let file = File::create(rt, name)?;
    Ok(HostSink::new(rt.alloc(), file)?)
}

#[test]
fn a_read_error_is_no_end(rt: HostRuntime) -> Result<(), Fail> {
    let mut source = HostSource::new(rt.alloc(), BrokenReader)?;
    assert!(rt; gives(&mut source, &[Err(Failed), Err(Failed)]));
    Ok(())
}

#[test]
fn a_write_of_nothing_fails(rt: HostRuntime) -> Result<(), Fail> {
    let mut sink = HostSink::with_capacity(rt.alloc(), 0, Full)?;
    assert!(rt; sink.put(1).is_err() && sink.put_slice(b"ab").is_err());
    Ok(())
}

#[test]
fn what_is_held_takes_one_write(rt: HostRuntime) -> Result<(), Fail> {
    let mut sink = HostSink::new(rt.alloc(), Once { is_written: false })?;
    let steps = [
        Step::PutPlaces(65_536),
        Step::Flush,
        Step::Finish(true),
        Step::Put(1, true),
        Step::Finish(false),
    ];
    assert!(rt; all_go(&rt, "", &mut EmptySource, &mut sink, &steps));
    Ok(())
}

#[test]
fn a_failed_write_is_reported_later(rt: HostRuntime) -> Result<(), Fail> {
    let mut sink = HostSink::new(rt.alloc(), Once { is_written: true })?;
    let steps = [
        Step::Put(1, true),
        Step::Flush,
        Step::Put(2, false),
        Step::Put(3, true),
        Step::Finish(false),
    ];
    assert!(rt; all_go(&rt, "", &mut EmptySource, &mut sink, &steps));
    Ok(())
}

#[test]
fn bytes_go_when_there_are_more_and_at_the_end(rt: HostRuntime) -> Result<(), Fail> {
    let name = "held.bytes";
    let mut sink = file_sink(&rt, name)?;
    let steps = [
        Step::PutPlaces(200_000),
        Step::HasLen(196_608),
        Step::Finish(true),
        Step::HasLen(200_000),
        Step::HasPlaces,
        Step::Remove,
    ];
    assert!(rt; all_go(&rt, name, &mut EmptySource, &mut sink, &steps));
    Ok(())
}

#[test]
fn a_line_feed_lets_go_on_a_terminal(rt: HostRuntime) -> Result<(), Fail> {
    let name = "screen.bytes";
    let file = File::create(&rt, name)?;
    let mut sink = HostSink::new(rt.alloc(), Screen { file })?;
    let steps = [
        Step::PutSlice(b"ab"),
        Step::HasLen(0),
        Step::Put(10, true),
        Step::Has(b"ab\n"),
        Step::Put(99, true),
        Step::Flush,
        Step::Has(b"ab\nc"),
        Step::Remove,
    ];
    assert!(rt; all_go(&rt, name, &mut EmptySource, &mut sink, &steps));
    Ok(())
}

#[test]
fn an_output_goes_before_its_input_waits(rt: HostRuntime) -> Result<(), Fail> {
    let name = "answered.bytes";
    let mut input = file_source(&rt, "asked.bytes", b"xy")?;
    let mut out = file_sink(&rt, name)?;
    let steps = [
        Step::Put(1, true),
        Step::HasLen(0),
        Step::Ask(Some(b'x')),
        Step::HasLen(1),
        Step::Put(2, true),
        Step::Ask(Some(b'y')),
        Step::HasLen(1),
        Step::Ask(None),
        Step::HasLen(2),
        Step::Remove,
    ];
    assert!(rt; all_go(&rt, name, &mut input, &mut out, &steps));
    Ok(())
}

#[test]
fn host_source_gives_the_bytes_of_a_reader(rt: HostRuntime) -> Result<(), Fail> {
    let mut source = file_source(&rt, "source.bytes", b"\x00\xff")?;
    assert!(rt;
        gives(
            &mut source,
            &[Ok(Some(0)), Ok(Some(255)), Ok(None), Ok(None)]
        )
    );
    Ok(())
}

#[test]
fn host_sink_that_holds_none_writes_each_byte(rt: HostRuntime) -> Result<(), Fail> {
    let name = "sink.bytes";
    let file = File::create(&rt, name)?;
    let mut sink = HostSink::with_capacity(rt.alloc(), 0, file)?;
    let steps = [
        Step::Put(0, true),
        Step::Put(10, true),
        Step::Put(255, true),
        Step::Has(&[0, 10, 255]),
        Step::Remove,
    ];
    assert!(rt; all_go(&rt, name, &mut EmptySource, &mut sink, &steps));
    Ok(())
}

#[test]
fn a_file_that_was_opened_for_reading_takes_no_byte(rt: HostRuntime) -> Result<(), Fail> {
    let file = File::open(&rt, "/dev/null")?;
    let mut closed = HostSink::with_capacity(rt.alloc(), 0, file)?;
    assert!(rt; closed.put(1).is_err());
    Ok(())
}

/// Reads of a file with five bytes, of one that is not there, and of a folder.
static HOST_READINGS: [Reading; 5] = [
    ("five.bytes", 6, Ok(ReadExtent::Whole), b"abcde"),
    ("five.bytes", 5, Ok(ReadExtent::Cut), b"abcde"),
    ("five.bytes", 2, Ok(ReadExtent::Cut), b"ab"),
    ("missing.bytes", 6, Err(FileFault::Failed), b""),
    ("/", 6, Err(FileFault::Failed), b""),
];

#[test]
fn host_files_reads_up_to_the_limit(rt: HostRuntime) -> Result<(), Fail> {
    fs::write(&rt, "five.bytes", b"abcde")?;
    let mut files = HostFiles::new(rt.alloc(), rt.clone()?)?;
    let are_read = all_read(rt.alloc(), &mut files, &HOST_READINGS);
    assert!(rt; are_read && fs::remove_file(&rt, "five.bytes").is_ok());
    Ok(())
}

#[test]
fn a_source_in_memory_fails_at_the_listed_calls(rt: HostRuntime) -> Result<(), Fail> {
    let bytes = [7, 8].to_vec(rt.alloc())?;
    let mut source = MemSource::new(bytes, [1].to_vec(rt.alloc())?);
    assert!(rt;
        gives(
            &mut source,
            &[Ok(Some(7)), Err(Failed), Ok(Some(8)), Ok(None)]
        )
    );
    Ok(())
}

#[test]
fn a_sink_in_memory_fails_at_the_listed_calls(rt: HostRuntime) -> Result<(), Fail> {
    let mut sink = MemSink::new(rt.alloc(), 2, [0].to_vec(rt.alloc())?)?;
    let steps = [
        Step::Put(5, false),
        Step::Put(5, true),
        Step::Put(5, true),
        Step::Put(5, false),
    ];
    assert!(rt; all_go(&rt, "", &mut EmptySource, &mut sink, &steps));
    assert!(rt; sink.taken_bytes() == [5, 5].as_slice());
    Ok(())
}

/// Files in memory, of which the second call fails.
fn files_in_memory(alloc: Global) -> Result<MemFiles, AllocError> {
    let mut name_and_bytes = Vec::new(alloc);
    name_and_bytes.push(("a.c".to_string(alloc)?, b"int".to_vec(alloc)?))?;
    Ok(MemFiles::new(name_and_bytes, [1].to_vec(alloc)?))
}

/// Reads of them, of which the second is due to fail, and the third is of a name that is not there.
static MEMORY_READINGS: [Reading; 4] = [
    ("a.c", 4, Ok(ReadExtent::Whole), b"int"),
    ("a.c", 4, Err(FileFault::Failed), b""),
    ("b.c", 4, Err(FileFault::Failed), b""),
    ("a.c", 4, Ok(ReadExtent::Whole), b"int"),
];

#[test]
fn files_in_memory_fail_at_the_listed_calls(rt: HostRuntime) -> Result<(), Fail> {
    let mut files = files_in_memory(rt.alloc())?;
    assert!(rt; all_read(rt.alloc(), &mut files, &MEMORY_READINGS));
    Ok(())
}
