//! Gates round the lines of streams that run beside one another, so that a run shows what goes on beside what.
use crate::memory_source::MemorySource;
use crate::no_watch::NoWatch;
use crate::steps::BINARY_TEXT;
use lj_run::{Options, Outcome, run_joint};
use lj_share::Gate;
use lj_text::MemorySink;
use std::alloc::{AllocError, Global};
use std::process::Abort;
use std::sync::Wait;
use std::sync::atomic::{AtomicBool, AtomicU64, Ordering};
use std::test::Fail;
use std::thread::{Threads, yield_now};

/// Streams on the four binary clauses, what is reported of each, and the proofs of which one is written.
#[derive(Clone, Copy)]
struct Run<'a> {
    streams: &'a [&'a str],
    closing: Option<&'a str>,
    reports: &'a [&'a str],
    proofs: &'a [&'a str],
}

/// Two provers on the binary clauses, the one of which finds 2 and the other -2, and a closing stream that imports both.
const PORTFOLIO: Run = Run {
    streams: &["5 2 0 1 2 0\n", "5 -2 0 3 4 0\n"],
    closing: Some("7 i 2 0\n8 i -2 0\n9 0 7 8 0\n"),
    reports: &[
        "1 added, 0 deleted, 0 imported, ended",
        "1 added, 0 deleted, 0 imported, ended",
        "1 added, 0 deleted, 2 imported, stopped",
    ],
    proofs: &[
        "5 2 0 1 2 0\n6 -2 0 3 4 0\n7 0 5 6 0\n",
        "5 -2 0 3 4 0\n6 2 0 1 2 0\n7 0 6 5 0\n",
    ],
};

fn source(alloc: Global, text: &str) -> Result<MemorySource, AllocError> {
    Ok(MemorySource::new(Vec::from_slice(alloc, text.as_bytes())?))
}

/// Runs the streams, and gives the outcome and the sink of the proof.
fn outcome_of<R: Threads + Wait + Abort + Sync, G: Gate + Sync>(
    rt: &R,
    alloc: Global,
    run: &Run,
    gate: &G,
) -> Result<(Outcome<MemorySource>, MemorySink), Fail> {
    let mut formula = source(alloc, BINARY_TEXT)?;
    let mut streams = Vec::new(alloc);
    for text in run.streams {
        streams.push(source(alloc, text)?)?;
    }
    assert!(rt; !streams.is_empty() && streams.len() < 9);
    let closing = match run.closing {
        Some(text) => Some(source(alloc, text)?),
        None => None,
    };
    let options = Options {
        max_steps: u32::MAX,
        trim: false,
        explain: false,
    };
    let mut out = Some(MemorySink::new(alloc));
    match run_joint(
        rt,
        alloc,
        &mut formula,
        streams,
        closing,
        &options,
        gate,
        &NoWatch,
        &mut out,
    ) {
        Ok(outcome) => Ok((outcome, out.ok_or("no sink")?)),
        Err(_) => panic!(rt; "the run has no outcome"),
    }
}

/// Runs the streams, and asserts that they are reported and proved as listed, and verified where one of them stopped.
fn assert_runs<R: Threads + Wait + Abort + Sync, G: Gate + Sync>(
    rt: &R,
    alloc: Global,
    run: &Run,
    gate: &G,
) -> Result<(), Fail> {
    let (outcome, sink) = outcome_of(rt, alloc, run, gate)?;
    assert!(rt; outcome.reports.len() == run.reports.len());
    let mut stopped = false;
    for (report, listed) in outcome.reports.iter().zip(run.reports) {
        let text = format!(in alloc; "{report}")?;
        assert_eq!(rt; text.as_str(), *listed);
        stopped |= listed.ends_with("stopped");
    }
    assert!(rt; outcome.verified.is_some() == stopped);
    assert!(rt;
        run.proofs
            .iter()
            .any(|proof| proof.as_bytes() == sink.bytes())
    );
    Ok(())
}

/// How often a gate gives its turn away before it lets go.
const TURNS: u32 = 1_000_000;

/// The prover holds its clauses while the other deletes all that it has.
const DELETED: Run = Run {
    streams: &["5 2 0 1 2 0\n", "6 d 1 2 3 4 0\n"],
    reports: &[
        "1 added, 0 deleted, 0 imported, ended",
        "0 added, 1 deleted, 0 imported, ended",
    ],
    closing: None,
    proofs: &["5 2 0 1 2 0\n"],
};

/// Holds line 1 of seat 0 until line 1 of seat 1 was answered, or its turns are used up.
#[derive(Drop)]
struct Holding {
    answered: AtomicBool,
    let_go: AtomicBool,
}

impl Gate for Holding {
    fn pass(&self, seat: u32, line: u64) {
        if seat != 0 || line != 1 {
            return;
        }
        for _ in 0..TURNS {
            if self.answered.load(Ordering::SeqCst) {
                return;
            }
            yield_now();
        }
        self.let_go.store(true, Ordering::SeqCst);
    }

    fn answered(&self, seat: u32, line: u64) {
        if seat == 1 && line == 1 {
            self.answered.store(true, Ordering::SeqCst);
        }
    }
}

#[test]
fn workers_run_beside_one_another(rt: HostRuntime) -> Result<(), Fail> {
    for run in [PORTFOLIO, DELETED] {
        let gate = Holding {
            answered: AtomicBool::new(false),
            let_go: AtomicBool::new(false),
        };
        assert_runs(&rt, rt.alloc(), &run, &gate)?;
        assert!(rt; !gate.let_go.load(Ordering::SeqCst));
    }
    Ok(())
}

/// Holds the provers of the portfolio for some turns, and notes how many of their lines were answered when the closing stream
/// comes with its first.
#[derive(Drop)]
struct Counting {
    answered: AtomicU64,
    before_closing: AtomicU64,
}

impl Gate for Counting {
    fn pass(&self, seat: u32, line: u64) {
        if seat != 2 {
            for _ in 0..1_000 {
                yield_now();
            }
        } else if line == 1 {
            let count = self.answered.load(Ordering::SeqCst);
            self.before_closing.store(count, Ordering::SeqCst);
        }
    }

    fn answered(&self, _: u32, _: u64) {
        self.answered.fetch_add(1, Ordering::SeqCst);
    }
}

#[test]
fn the_closing_stream_comes_last(rt: HostRuntime) -> Result<(), Fail> {
    for _ in 0..10 {
        let gate = Counting {
            answered: AtomicU64::new(0),
            before_closing: AtomicU64::new(0),
        };
        assert_runs(&rt, rt.alloc(), &PORTFOLIO, &gate)?;
        assert!(rt; gate.before_closing.load(Ordering::SeqCst) == 2);
    }
    Ok(())
}

/// A stream whose second line is stuck by its first list.
const STUCK: Run = Run {
    streams: &["5 2 0 1 2 0\n6 2 0 3 1 0\n"],
    closing: None,
    reports: &["1 added, 0 deleted, 0 imported, line 2: HintNotUnit(1)"],
    proofs: &["5 2 0 1 2 0\n"],
};

/// Counts the lines that come to the book.
#[derive(Drop)]
struct Passing(AtomicU64);

impl Gate for Passing {
    fn pass(&self, _: u32, _: u64) {
        self.0.fetch_add(1, Ordering::SeqCst);
    }

    fn answered(&self, _: u32, _: u64) {}
}

/// A line that is stuck by its first list is refused outside of the lock: of the two lines, the first alone comes to the book.
#[test]
fn a_stuck_line_does_not_come_to_the_book(rt: HostRuntime) -> Result<(), Fail> {
    let gate = Passing(AtomicU64::new(0));
    assert_runs(&rt, rt.alloc(), &STUCK, &gate)?;
    assert!(rt; gate.0.load(Ordering::SeqCst) == 1);
    Ok(())
}
