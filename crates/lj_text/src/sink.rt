//! Where bytes go.
ghost use Rattle.std.specs.Prelude.{◌≡◌, ℕ, ◌+◌, ◌<◌, ◌++◌, Option, List, [], length, take, Some, OnOk, OnErr, IfOk};
ghost use Rattle.std.specs.Io.{WritesAtMost};
ghost use Rattle.std.specs.Io.KnownBytes.{Appends, Keeps};

use crate::bytes_so_far::BytesSoFar;
use std::alloc::Global;
use std::io::Write;
use std::marker::Model;
use thiserror::Error;

/// A write failed. The sink isn't given more.
#[derive(Clone, Copy, Debug, PartialEq, Eq, Error)]
#[error("a write failed")]
pub struct SinkFault;

/// What takes bytes in pieces.
pub trait Sink {
    /// The bytes taken so far.
    ghost taken: { Self → List ℕ };

    /// The bytes that stand where it puts them, where the sink tells them.
    ghost contents: { Self → Option (List ℕ) };

    /// How often it has failed.
    ghost failures: { Self → ℕ };

    /// Takes bytes from the front of the piece and answers how many: one at least, where the piece
    /// has any. One that has failed is given no more. Takes one write's time: a caller counts it as linear in the piece.
    fn put(&mut self, piece: &[u8]) -> Result<usize, SinkFault>
        requires { failures self.old ≡ 0 }

        ensures bound { WritesAtMost result piece.now }
        ensures some { IfOk result (λ n. 0 < length piece.now → 0 < n) }
        ensures taken { IfOk result (λ n. taken self.new ≡ taken self.old ++ take n piece.now) }
        ensures contents { IfOk result
            (λ n. Appends (contents self.old) (contents self.new) (take n piece.now)) }
        ensures ok { OnOk result (failures self.new ≡ failures self.old) }

        ensures err { OnErr result (failures self.new ≡ failures self.old + 1) }
        ensures none_taken { OnErr result (taken self.new ≡ taken self.old) }
        ensures kept { OnErr result (Keeps (contents self.old) (contents self.new)) };
}

impl<S: Sink> Sink for &mut S {
    ghost taken = { λ sink. S.taken sink.now };

    ghost contents = { λ sink. S.contents sink.now };

    ghost failures = { λ sink. S.failures sink.now };

    fn put(&mut self, piece: &[u8]) -> Result<usize, SinkFault> {
        Sink::put(&mut **self, piece)
    }
}

/// Puts all of the bytes. After a failure a beginning of them was taken, and not all. Takes the time of as many puts as the
/// sink takes pieces: at most one for each byte.
///
/// # Errors
/// [`SinkFault`] where a put failed.
pub fn write_all<S: Sink>(sink: &mut S, bytes: &[u8]) -> Result<(), SinkFault>
    requires { S.failures sink.old ≡ 0 }

    ensures taken { OnOk result (S.taken sink.new ≡ S.taken sink.old ++ bytes.now) }
    ensures contents { OnOk result (Appends (S.contents sink.old) (S.contents sink.new) bytes.now) }
    ensures ok { OnOk result (S.failures sink.new ≡ S.failures sink.old) }

    ensures beginning { OnErr result ((n : ℕ) × (n < length bytes.now)
        × (S.taken sink.new ≡ S.taken sink.old ++ take n bytes.now)
        × Appends (S.contents sink.old) (S.contents sink.new) (take n bytes.now)) }
    ensures err { OnErr result (S.failures sink.new ≡ S.failures sink.old + 1) }
{
    let mut done = 0;
    while done < bytes.len() {
        done += sink.put(&bytes[done..])?;
    }
    Ok(())
}

/// Bytes in memory, seen as those taken so far and the count of failures. It fails where memory is
/// refused.
#[derive(Debug, Drop)]
pub struct MemorySink {
    bytes: Vec<u8>,
    refused: bool,
}

impl Model for MemorySink {
    ghost use Rattle.std.specs.Prelude.{ℕ, List, if◌then◌else◌};

    ghost Value = { List ℕ × ℕ };

    ghost view = { λ sink. (sink.bytes.items, if sink.refused then 1 else 0) };
}

impl MemorySink {
    /// Nothing is taken yet, and it has not failed. Takes constant time.
    pub fn new(alloc: Global) -> Self
        ensures { result ≡ ([], 0) }
    {
        MemorySink {
            bytes: Vec::new(alloc),
            refused: false,
        }
    }

    /// The bytes taken so far. Takes constant time.
    pub fn bytes(&self) -> &[u8]
        ensures { result.now ≡ self.now.0 }
    {
        &self.bytes
    }

    /// The bytes taken so far, by value. Takes constant time.
    pub fn into_bytes(self) -> Vec<u8>
        ensures { result.items ≡ self.0 }
    {
        self.bytes
    }
}

impl Sink for MemorySink {
    ghost taken = { λ sink. sink.0 };

    ghost contents = { λ sink. Some sink.0 };

    ghost failures = { λ sink. sink.1 };

    fn put(&mut self, piece: &[u8]) -> Result<usize, SinkFault> {
        match self.bytes.extend_from_slice(piece) {
            Ok(()) => Ok(piece.len()),
            Err(_) => {
                self.refused = true;
                Err(SinkFault)
            }
        }
    }
}

/// A writer of std, seen as the writer, the bytes taken so far and the count of failures. Each error of the writer is a
/// failure, an interrupted write too, and so is a write that takes nothing of a piece that has bytes. It flushes nothing: lend
/// it `&mut` a writer that keeps bytes back, and flush that one afterwards.
#[derive(Debug, Drop)]
pub struct WriterSink<W> {
    writer: W,
    taken: BytesSoFar,
    failed: bool,
}

impl<W> Model for WriterSink<W> {
    ghost use Rattle.std.specs.Prelude.{if◌then◌else◌};
    ghost use Rattle.lj_text.specs.Streams.{WriterSoFar};

    ghost Value = { WriterSoFar W };

    ghost view = { λ sink. record {
      writer = sink.writer;
      taken = sink.taken.bytes;
      failures = if sink.failed then 1 else 0;
    } };
}

impl<W> WriterSink<W> {
    /// The writer takes the bytes. It has taken none yet, and has not failed. Takes constant time.
    pub fn new(writer: W) -> Self
        ensures { result ≡ record { writer = writer; taken = []; failures = 0 } }
    {
        WriterSink {
            writer,
            taken: BytesSoFar::new(),
            failed: false,
        }
    }
}

impl<W: Write> Sink for WriterSink<W> {
    ghost taken = { λ sink. sink.taken };

    ghost contents = { λ sink. W.contents sink.writer };

    ghost failures = { λ sink. sink.failures };

    fn put(&mut self, piece: &[u8]) -> Result<usize, SinkFault> {
        match self.writer.write(piece) {
            Ok(count) if count > 0 || piece.is_empty() => {
                self.taken = self.taken.and(&piece[..count]);
                Ok(count)
            }
            _ => {
                self.failed = true;
                Err(SinkFault)
            }
        }
    }
}
