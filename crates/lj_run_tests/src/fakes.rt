//! Fakes: streams that fail at a given place.
ghost use Rattle.std.specs.Prelude.{◌≡◌, ◌+◌, false, if◌then◌else◌};

use lj_text::{Sink, SinkFault, Source, SourceFault};

/// A source that passes on so many pulls and fails at the next.
#[derive(Debug, Drop)]
pub struct FailingSource<S> {
    pub source: S,
    /// How many pulls are still passed on.
    pub pulls: u64,
    pub failed: bool,
}

impl<S> FailingSource<S> {
    /// Passes on `pulls` pulls, and fails at the next.
    pub fn new(source: S, pulls: u64) -> Self
        ensures { result ≡ record { source = source; pulls = pulls; failed = false } }
    {
        FailingSource {
            source,
            pulls,
            failed: false,
        }
    }
}

impl<S: Source> Source for FailingSource<S> {
    ghost given = { λ failing. S.given failing.source };

    ghost ended = { λ failing. S.ended failing.source };

    ghost rest = { λ failing. S.rest failing.source };

    ghost failures = { λ failing. S.failures failing.source + (if failing.failed then 1 else 0) };

    fn pull(&mut self, buffer: &mut [u8]) -> Result<usize, SourceFault> {
        if self.pulls == 0 {
            self.failed = true;
            return Err(SourceFault);
        }
        self.pulls -= 1;
        self.source.pull(buffer)
    }
}

/// A sink that takes so many bytes in all and fails at the next.
#[derive(Debug, Drop)]
pub struct FailingSink<S> {
    pub sink: S,
    /// How many bytes are still taken.
    pub capacity: usize,
    pub failed: bool,
}

impl<S> FailingSink<S> {
    /// Takes `capacity` bytes, and fails at the next.
    pub fn new(sink: S, capacity: usize) -> Self
        ensures { result ≡ record { sink = sink; capacity = capacity; failed = false } }
    {
        FailingSink {
            sink,
            capacity,
            failed: false,
        }
    }
}

impl<S: Sink> Sink for FailingSink<S> {
    ghost taken = { λ failing. S.taken failing.sink };

    ghost contents = { λ failing. S.contents failing.sink };

    ghost failures = { λ failing. S.failures failing.sink + (if failing.failed then 1 else 0) };

    fn put(&mut self, piece: &[u8]) -> Result<usize, SinkFault> {
        if self.capacity == 0 && !piece.is_empty() {
            self.failed = true;
            return Err(SinkFault);
        }
        let count = piece.len().min(self.capacity);
        let count = self.sink.put(&piece[..count])?;
        self.capacity -= count;
        Ok(count)
    }
}
