//! Sources, sinks and files over memory, over readers and writers, and that fail.
ghost use Rattle.std.specs.Prelude.{◌≡◌};

use crate::fakes::{FailingSink, FailingSource};
use crate::memory_files::MemoryFiles;
use crate::memory_source::MemorySource;
use lj_run::Files;
use lj_text::{
    MemorySink, ReaderSource, Sink, SinkFault, Source, SourceFault, WriterSink, write_all,
};
use std::alloc::{AllocError, Global};
use std::io;
use std::io::{ErrorKind, Read};
use std::process::Abort;
use std::test::Fail;

/// The bytes up to the end or a failure, pulled by two, and whether there was a failure.
fn drained<S: Source>(alloc: Global, source: &mut S) -> Result<(Vec<u8>, bool), AllocError>
    requires { S.failures source.old ≡ 0 }
{
    let mut bytes = Vec::new(alloc);
    let mut buffer = [0; 2];
    for _ in 0..100 {
        match source.pull(&mut buffer) {
            Ok(0) => break,
            Ok(count) => bytes.extend_from_slice(&buffer[..count])?,
            Err(SourceFault) => return Ok((bytes, true)),
        }
    }
    Ok((bytes, false))
}

#[derive(Drop)]
struct Broken;

impl Read for Broken {
    fn read(&mut self, _buffer: &mut [u8]) -> io::Result<usize> {
        Err(io::Error::from(ErrorKind::TimedOut))
    }
}

/// Asserts that a source over memory gives its bytes in the pieces that are asked for.
fn assert_source(rt: &impl Abort, alloc: Global) -> Result<(), Fail> {
    let mut source = MemorySource::new(b"12345".to_vec(alloc)?);
    let mut buffer = [9; 4];
    assert_eq!(rt; source.pull(&mut buffer)?, 4);
    assert_eq!(rt; buffer, *b"1234");
    let (bytes, failed) = drained(alloc, &mut &mut source)?;
    assert!(rt; bytes.as_slice() == b"5".as_slice() && !failed);
    assert_eq!(rt; source.pull(&mut buffer)?, 0);
    Ok(())
}

/// Asserts that a sink over memory takes all.
fn assert_sink(rt: &impl Abort, alloc: Global) -> Result<(), Fail> {
    let mut sink = MemorySink::new(alloc);
    assert_eq!(rt; sink.put(b"12")?, 2);
    write_all(&mut sink, b"")?;
    write_all(&mut &mut sink, b"345")?;
    assert_eq!(rt; sink.bytes(), b"12345".as_slice());
    assert_eq!(rt; sink.into_bytes().as_slice(), b"12345".as_slice());
    Ok(())
}

/// Writes a file, and asserts that its text is there, and that it is read again.
fn assert_file(
    rt: &impl Abort,
    alloc: Global,
    files: &mut MemoryFiles,
    path: &str,
    text: &[u8],
) -> Result<(), Fail> {
    write_all(&mut files.create(path)?, text)?;
    let (read, failed) = drained(alloc, &mut files.open(path)?)?;
    assert!(rt; read.as_slice() == text && !failed);
    Ok(())
}

/// Nothing is kept back or lost in memory: the bytes of a source, those that a sink takes, and those of files.
#[test]
fn memory_gives_and_takes_all(rt: HostRuntime) -> Result<(), Fail> {
    assert_source(&rt, rt.alloc())?;
    assert_sink(&rt, rt.alloc())?;
    let mut files = MemoryFiles::new(rt.alloc());
    files.add("in", b"12")?;
    assert!(rt; files.open("out").is_err());
    for (path, text) in [("out", "345"), ("out", ""), ("out", "6"), ("in", "7")] {
        assert_file(&rt, rt.alloc(), &mut files, path, text.as_bytes())?;
    }
    Ok(())
}

/// Asserts what a source gives, and whether it fails then.
fn assert_drained<S: Source>(
    rt: &impl Abort,
    alloc: Global,
    source: &mut S,
    text: &[u8],
    fails: bool,
) -> Result<(), Fail>
    requires { S.failures source.old ≡ 0 }
{
    let (bytes, failed) = drained(alloc, source)?;
    assert_eq!(rt; bytes.as_slice(), text);
    assert_eq!(rt; failed, fails);
    Ok(())
}

/// Asserts what writers of std take.
fn assert_written(rt: &impl Abort, alloc: Global) -> Result<(), Fail> {
    let mut bytes = Vec::new(alloc);
    let mut sink = WriterSink::new(&mut bytes);
    write_all(&mut sink, b"12")?;
    write_all(&mut sink, b"345")?;
    assert_eq!(rt; sink.put(b"")?, 0);
    assert_eq!(rt; bytes.as_slice(), b"12345".as_slice());
    let mut capacity = [0; 2];
    let mut sink = WriterSink::new(&mut capacity[..]);
    assert_eq!(rt; write_all(&mut sink, b"123"), Err(SinkFault));
    assert_eq!(rt; capacity, *b"12");
    Ok(())
}

/// Each source passes its bytes on up to its end or its failure, and each sink takes its bytes up to its failure.
#[test]
fn bytes_come_up_to_an_end_or_a_failure(rt: HostRuntime) -> Result<(), Fail> {
    let alloc = rt.alloc();
    let all = b"12345".as_slice();
    assert_drained(&rt, alloc, &mut ReaderSource::new(all), all, false)?;
    let mut breaking = ReaderSource::new(b"123".as_slice().chain(Broken));
    assert_drained(&rt, alloc, &mut breaking, b"123", true)?;
    for (pulls, length, fails) in [
        (0, 0, true),
        (1, 2, true),
        (2, 4, true),
        (3, 5, true),
        (4, 5, false),
    ] {
        let mut source = FailingSource::new(MemorySource::new(all.to_vec(alloc)?), pulls);
        assert_drained(&rt, alloc, &mut source, &all[..length], fails)?;
    }
    assert_written(&rt, alloc)?;
    for capacity in 0..=6 {
        let mut sink = FailingSink::new(MemorySink::new(alloc), capacity);
        assert!(rt; write_all(&mut sink, all).is_ok() == (capacity >= 5));
        assert_eq!(rt; sink.sink.bytes(), &all[..capacity.min(5)]);
    }
    Ok(())
}
