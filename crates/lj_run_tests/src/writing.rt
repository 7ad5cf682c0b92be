//! Joint proofs into sinks that take only so much, and only so much a call.
ghost use Rattle.std.specs.Prelude.{◌≡◌, [], false};

use crate::fakes::FailingSink;
use crate::memory_source::MemorySource;
use crate::no_watch::NoWatch;
use crate::steps::{BINARY_TEXT, steps_of};
use lj_run::{Options, ProofEnd, ProofFault, run_in_turn};
use lj_text::{MemorySink, ProofWriter, Sink, SinkFault, Step, WriteFault};
use std::alloc::Global;
use std::process::Abort;
use std::sync::Wait;
use std::test::Fail;

/// A proof of the four binary clauses, of 24 bytes.
const TWO_STEPS: &str = "5 2 0 1 2 0\n6 0 5 3 4 0\n";

/// A sink that takes no more than so many bytes a call, and one at least.
#[derive(Debug, Drop)]
struct NarrowSink<S> {
    sink: S,
    most: usize,
}

impl<S: Sink> Sink for NarrowSink<S> {
    ghost taken = { λ narrow. S.taken narrow.sink };

    ghost contents = { λ narrow. S.contents narrow.sink };

    ghost failures = { λ narrow. S.failures narrow.sink };

    fn put(&mut self, piece: &[u8]) -> Result<usize, SinkFault> {
        let count = piece.len().min(self.most.max(1));
        self.sink.put(&piece[..count])
    }
}

/// A sink over memory that takes so many bytes in all, no more than `most` of them a call.
fn small_sink(alloc: Global, capacity: usize, most: usize) -> NarrowSink<FailingSink<MemorySink>>
    ensures capacity { result.sink ≡ record
        { sink = ([], 0); capacity = capacity; failed = false } }
{
    let sink = FailingSink::new(MemorySink::new(alloc), capacity);
    NarrowSink { sink, most }
}

/// How many bytes a sink takes a call: one, a part of a line, and as many as there are.
const WIDTHS: [usize; 3] = [1, 5, 24];

/// Asserts what a writer of the two steps answers, into a sink that takes `capacity` bytes, `most` a call.
fn assert_fails(
    rt: &impl Abort,
    alloc: Global,
    steps: &[Step],
    capacity: usize,
    most: usize,
) -> Result<(), Fail> {
    let mut writer = ProofWriter::new(small_sink(alloc, capacity, most), 4);
    for step in steps {
        assert!(rt; writer.step(step).is_ok(), "with room for {capacity}");
    }
    let (first, again) = match capacity {
        24 => (Ok(()), Ok(())),
        _ => (Err(WriteFault::Device), Err(WriteFault::Failed)),
    };
    let is_right = writer.finish() == first && writer.finish() == again;
    assert!(rt; is_right, "with room for {capacity}, {most} a call");
    let taken = TWO_STEPS
        .as_bytes()
        .get(..capacity)
        .ok_or("more room than bytes")?;
    assert!(rt; writer.into_sink().sink.sink.bytes() == taken);
    Ok(())
}

/// What became of the proof of a run that verifies, and the sink that it was written to.
fn proof_into(
    rt: &impl Wait,
    alloc: Global,
    sink: NarrowSink<FailingSink<MemorySink>>,
) -> Result<(bool, ProofEnd, Vec<u8>), Fail>
    requires { (sink.sink.sink.1 ≡ 0) × (sink.sink.failed ≡ false) }
{
    let mut formula = MemorySource::new(BINARY_TEXT.as_bytes().to_vec(alloc)?);
    let mut streams = Vec::new(alloc);
    streams.push(MemorySource::new(TWO_STEPS.as_bytes().to_vec(alloc)?))?;
    let options = Options {
        max_steps: u32::MAX,
        trim: false,
        explain: false,
    };
    let mut out = Some(sink);
    let outcome = run_in_turn(
        rt,
        alloc,
        &mut formula,
        streams,
        None,
        &options,
        &NoWatch,
        &mut out,
    )?;
    let sink = out.ok_or("the sink")?;
    let bytes = sink.sink.sink.into_bytes();
    Ok((outcome.verified.is_some(), outcome.proof, bytes))
}

/// The writer fails where its sink is full, and the verdict is that of a run without a proof, whatever the sink takes.
#[test]
fn a_writer_fails_where_its_sink_is_full(rt: HostRuntime) -> Result<(), Fail> {
    let steps = steps_of(rt.alloc(), TWO_STEPS)?;
    for most in WIDTHS {
        for capacity in 0..=24 {
            assert_fails(&rt, rt.alloc(), &steps, capacity, most)?;
            let sink = small_sink(rt.alloc(), capacity, most);
            let (verified, end, bytes) = proof_into(&rt, rt.alloc(), sink)?;
            let wanted = match capacity {
                24 => ProofEnd::Written,
                _ => ProofEnd::Failed(ProofFault::Device),
            };
            assert!(rt;
                verified && end == wanted,
                "with room for {capacity}, {most} a call"
            );
            assert_eq!(rt; bytes.as_slice(), &TWO_STEPS.as_bytes()[..capacity]);
        }
    }
    Ok(())
}
