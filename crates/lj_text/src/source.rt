//! Where bytes come from.
ghost use Rattle.std.specs.Prelude.{◌≡◌, ℕ, ◌+◌, ◌<◌, ◌++◌, ◌↔◌, Bool, true, false, Option, List, [], length, take, OnOk, OnErr, IfOk};
ghost use Rattle.std.specs.Io.{ReadsAtMost};
ghost use Rattle.std.specs.Io.KnownBytes.{Consumes, IsAtEnd, Keeps};

use crate::bytes_so_far::BytesSoFar;
use std::io::Read;
use std::marker::Model;
use thiserror::Error;

/// A read failed. The source isn't pulled again.
#[derive(Clone, Copy, Debug, PartialEq, Eq, Error)]
#[error("a read failed")]
pub struct SourceFault;

/// Bytes that come in pieces, to an end or to a failure.
pub trait Source {
    /// The bytes given so far.
    ghost given: { Self → List ℕ };

    /// Whether it has ended.
    ghost ended: { Self → Bool };

    /// The bytes still to come, where the source tells them.
    ghost rest: { Self → Option (List ℕ) };

    /// How often it has failed.
    ghost failures: { Self → ℕ };

    /// Puts the next bytes at the front of the buffer and answers how many, 0 exactly where the source has ended.
    /// It stays ended. What the buffer holds behind them is left open. One that has failed isn't pulled again. Takes one
    /// read's time: a caller counts it as linear in the buffer.
    fn pull(&mut self, buffer: &mut [u8]) -> Result<usize, SourceFault>
        requires scratch { 0 < length buffer.old }
        requires unfailed { failures self.old ≡ 0 }

        ensures bound { ReadsAtMost result buffer.new }
        ensures given { IfOk result (λ n. given self.new ≡ given self.old ++ take n buffer.new) }
        ensures end { IfOk result (λ n. (n ≡ 0) ↔ (ended self.new ≡ true)) }
        ensures stays_ended { ended self.old ≡ true → IfOk result (λ n. n ≡ 0) }
        ensures rest { IfOk result
            (λ n. Consumes (rest self.old) (rest self.new) (take n buffer.new)) }
        ensures rest_end { IfOk result (λ n. n ≡ 0 → IsAtEnd (rest self.new)) }
        ensures ok { OnOk result (failures self.new ≡ failures self.old) }

        ensures err { OnErr result (failures self.new ≡ failures self.old + 1) }
        ensures none_given { OnErr result (given self.new ≡ given self.old) }
        ensures none_ended { OnErr result (ended self.new ≡ ended self.old) }
        ensures kept { OnErr result (Keeps (rest self.old) (rest self.new)) };
}

impl<S: Source> Source for &mut S {
    ghost given = { λ source. S.given source.now };

    ghost ended = { λ source. S.ended source.now };

    ghost rest = { λ source. S.rest source.now };

    ghost failures = { λ source. S.failures source.now };

    fn pull(&mut self, buffer: &mut [u8]) -> Result<usize, SourceFault> {
        Source::pull(&mut **self, buffer)
    }
}

/// The bytes of a reader of std, seen as the reader, the bytes given so far, whether it has ended and the count of
/// failures. Each error of the reader is a failure, an interrupted read too. Once the reader has told its end, it
/// isn't read again.
#[derive(Debug, Drop)]
pub struct ReaderSource<R: Read> {
    reader: R,
    given: BytesSoFar,
    ended: bool,
    failed: bool,
}

impl<R: Read> Model for ReaderSource<R> {
    ghost use Rattle.std.specs.Prelude.{◌≡◌, true, if◌then◌else◌};
    ghost use Rattle.std.specs.Io.KnownBytes.{IsAtEnd};
    ghost use Rattle.lj_text.specs.Streams.{ReaderSoFar};

    ghost Value = { ReaderSoFar R };

    ghost view = { λ source. record {
      reader = source.reader;
      given = source.given.bytes;
      ended = source.ended;
      failures = if source.failed then 1 else 0;
    } };

    ghost invariant = { λ source. source.ended ≡ true → IsAtEnd (R.remaining source.reader) };
}

impl<R: Read> ReaderSource<R> {
    /// The reader's bytes. It has given none, and has neither ended nor failed. Takes constant time.
    pub fn new(reader: R) -> Self
        ensures { result ≡ record { reader = reader; given = []; ended = false; failures = 0 } }
    {
        ReaderSource {
            reader,
            given: BytesSoFar::new(),
            ended: false,
            failed: false,
        }
    }
}

impl<R: Read> Source for ReaderSource<R> {
    ghost given = { λ source. source.given };

    ghost ended = { λ source. source.ended };

    ghost rest = { λ source. R.remaining source.reader };

    ghost failures = { λ source. source.failures };

    fn pull(&mut self, buffer: &mut [u8]) -> Result<usize, SourceFault> {
        if self.ended {
            return Ok(0);
        }
        match self.reader.read(buffer) {
            Ok(count) => {
                self.given = self.given.and(&buffer[..count]);
                self.ended = count == 0;
                Ok(count)
            }
            Err(_) => {
                self.failed = true;
                Err(SourceFault)
            }
        }
    }
}
