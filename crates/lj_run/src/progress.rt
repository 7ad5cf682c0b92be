//! How far streams are, told while they run.
use crate::watch::Watch;
use std::alloc::{AllocError, Global};
use std::sync::atomic::{AtomicU64, Ordering};
use std::time::{Clock, Instant};

/// The least milliseconds from lines to the next ones.
const BETWEEN: u64 = 1000;

/// How far a stream is.
#[derive(Drop)]
struct Count {
    bytes: AtomicU64,
    lines: AtomicU64,
}

/// Counts the bytes and the lines of streams, and tells them on standard error, a line for each stream, at most once a second.
/// That the clock or standard error fails changes nothing else.
#[derive(Drop)]
pub(crate) struct Progress<'a, R> {
    runtime: &'a R,
    start: Instant,
    /// How many milliseconds after the start lines are due; the greatest number while a worker tells them.
    due: AtomicU64,
    counts: Vec<Count>,
}

impl<'a, R: Clock + Eprint> Progress<'a, R> {
    /// The progress of so many streams, of which nothing was read. There is none without a clock, or if memory is refused.
    pub(crate) fn new(runtime: &'a R, alloc: Global, streams: usize) -> Option<Self> {
        let start = Instant::now(runtime).ok()?;
        let counts = counts_of(alloc, streams).ok()?;
        Some(Progress {
            runtime,
            start,
            due: AtomicU64::new(BETWEEN),
            counts,
        })
    }

    /// Tells how far the streams are, if that is due and no other worker tells it.
    fn tell_if_due(&self) {
        let Ok(elapsed) = self.start.elapsed(self.runtime) else {
            return;
        };
        let now = u64::try_from(elapsed.as_millis()).unwrap_or(u64::MAX);
        let due = self.due.load(Ordering::Relaxed);
        if now < due {
            return;
        }
        let taken = self
            .due
            .compare_exchange(due, u64::MAX, Ordering::Relaxed, Ordering::Relaxed);
        if taken.is_ok() {
            self.tell();
            self.due
                .store(now.saturating_add(BETWEEN), Ordering::Relaxed);
        }
    }

    /// Tells how far the streams are.
    fn tell(&self) {
        for (stream, count) in self.counts.iter().enumerate() {
            let bytes = count.bytes.load(Ordering::Relaxed);
            let lines = count.lines.load(Ordering::Relaxed);
            let _ = eprintln!(self.runtime;
                "c progress: stream {stream}: {bytes} bytes, {lines} lines"
            );
        }
    }
}

/// That nothing was read of so many streams.
fn counts_of(alloc: Global, streams: usize) -> Result<Vec<Count>, AllocError> {
    let mut counts = Vec::with_capacity(alloc, streams)?;
    for _ in 0..streams {
        counts.push(Count {
            bytes: AtomicU64::new(0),
            lines: AtomicU64::new(0),
        })?;
    }
    Ok(counts)
}

/// Where progress isn't asked for, nothing is counted.
impl<R: Clock + Eprint> Watch for Option<Progress<'_, R>> {
    fn read(&self, stream: u32, bytes: usize) {
        let Some(progress) = self else {
            return;
        };
        if let Some(count) = progress.counts.get(stream as usize) {
            count.bytes.fetch_add(bytes as u64, Ordering::Relaxed);
        }
        progress.tell_if_due();
    }

    fn entered(&self, stream: u32, lines: usize) {
        let Some(progress) = self else {
            return;
        };
        if let Some(count) = progress.counts.get(stream as usize) {
            count.lines.fetch_add(lines as u64, Ordering::Relaxed);
        }
        progress.tell_if_due();
    }
}
