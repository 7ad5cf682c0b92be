//! The joint proof as text.
ghost use Rattle.std.specs.Prelude.{◌≡◌, ℕ, ◌+◌, [], ◌++◌, ◌↔◌, true, false, map, length, Ok, Err, OnOk, OnErr};
ghost use Rattle.lj_text.specs.StepText.{step_text, greatest_with, proof_text};
ghost use Rattle.lj_text.specs.Writing.{IsBeginning, IsCutShort};
ghost use Rattle.lj_text.specs.inner.Writing.{Wrote, Broke};

mod buffer;
mod step_tokens;
mod token_writer;

use crate::as_step::AsStep;
use crate::sink::{Sink, SinkFault};
use crate::step::Step;
use buffer::OutputBuffer;
use std::marker::Model;
use step_tokens::{write_addition, write_deletion};
use thiserror::Error;
pub use token_writer::{LineToken, TokenWriter};

/// Why a writer wrote nothing, or only a beginning.
#[derive(Clone, Copy, Debug, PartialEq, Eq, Error)]
pub enum WriteFault {
    /// A write of the sink failed in this call.
    #[error("a write failed")]
    Device,
    /// A write of the sink failed in an earlier call.
    #[error("an earlier write failed")]
    Failed,
}

/// Writes the line of a step. A deletion begins with the number `greatest`.
fn write_step<W: Sink>(
    sink: &mut W,
    buffer: &mut OutputBuffer,
    greatest: u64,
    step: &Step,
) -> Result<(), SinkFault>
    requires { W.failures sink.old ≡ 0 }

    ensures wrote { OnOk result (Wrote (W.taken sink.old) buffer.old (W.taken sink.new) buffer.new
        (step_text greatest step.now)) }
    ensures unfailed { OnOk result (W.failures sink.new ≡ 0) }
    ensures broke { OnErr result (Broke (W.taken sink.old) buffer.old (W.taken sink.new)
        (step_text greatest step.now)) }
    ensures failed { OnErr result (W.failures sink.new ≡ 1) }
    ensures none { OnErr result (buffer.new ≡ []) }
{
    match step {
        Step::Add(addition) => write_addition(sink, buffer, addition),
        Step::Delete { numbers } => write_deletion(sink, buffer, greatest, numbers),
    }
}

/// The greater of a number and that of an addition, or the number itself at a deletion.
fn greatest_after(greatest: u64, step: &Step) -> u64
    ensures { result ≡ greatest_with greatest step.now }
{
    match step {
        Step::Add(addition) => greatest.max(addition.number),
        Step::Delete { .. } => greatest,
    }
}

/// Writes the steps of a joint proof as lines, under their joint numbers. It is seen as its sink, the text that it was
/// given to write, the greatest number so far and whether a write of the sink failed.
///
/// It takes no memory: what the sink hasn't taken yet is held back in a place of fixed size, until that is full or
/// [`ProofWriter::finish`] is called. Then the sink is given many lines at a time. What is held where the writer is
/// dropped is lost.
#[derive(Drop)]
pub struct ProofWriter<W: Sink> {
    sink: W,
    buffer: OutputBuffer,
    greatest: u64,
    failed: bool,
}

impl<W: Sink> Model for ProofWriter<W> {
    ghost use Rattle.std.specs.Prelude.{◌≡◌, ◌++◌, false};
    ghost use Rattle.lj_text.specs.Writer.{WriterValue};

    ghost Value = { WriterValue W };

    ghost view = { λ w. record {
      sink = w.sink;
      text = W.taken w.sink ++ w.buffer;
      greatest = w.greatest;
      failed = w.failed;
    } };

    ghost invariant = { λ w. w.failed ≡ false → W.failures w.sink ≡ 0 };
}

impl<W: Sink> ProofWriter<W> {
    /// Nothing is written yet behind what the sink has taken. The formula has so many clauses. Takes constant time.
    pub fn new(sink: W, clauses: u64) -> Self
        requires { W.failures sink ≡ 0 }
        ensures { result
            ≡ record { sink = sink; text = W.taken sink; greatest = clauses; failed = false } }
    {
        ProofWriter {
            sink,
            buffer: OutputBuffer::new(),
            greatest: clauses,
            failed: false,
        }
    }

    /// Writes the line of a step. Takes time linear in its literals and numbers.
    ///
    /// # Errors
    /// [`WriteFault::Device`] where a write of the sink failed: it has taken a beginning of the text.
    /// [`WriteFault::Failed`] in each call after that: nothing is written.
    pub fn step(&mut self, step: &Step) -> Result<(), WriteFault>
        ensures text { OnOk result
            (self.new.text ≡ self.old.text ++ step_text self.old.greatest step.now) }
        ensures greatest { OnOk result
            (self.new.greatest ≡ greatest_with self.old.greatest step.now) }
        ensures ok { OnOk result ((self.new.failed ≡ false)
            × (W.failures self.new.sink ≡ W.failures self.old.sink)) }

        ensures device { result ≡ Err WriteFault.Device → (self.new.failed ≡ true)
            × (W.failures self.new.sink ≡ W.failures self.old.sink + 1) }
        ensures cut_short { result ≡ Err WriteFault.Device → IsCutShort (W.taken self.new.sink)
            (self.old.text ++ step_text self.old.greatest step.now) }

        ensures failed { (result ≡ Err WriteFault.Failed) ↔ (self.old.failed ≡ true) }
        ensures unchanged { self.old.failed ≡ true → self.new ≡ self.old }

        ensures onward { IsBeginning (W.taken self.old.sink) (W.taken self.new.sink) }
        ensures within { IsBeginning (W.taken self.new.sink) self.new.text }
    {
        if self.failed {
            return Err(WriteFault::Failed);
        }
        match write_step(&mut self.sink, &mut self.buffer, self.greatest, step) {
            Ok(()) => {
                self.greatest = greatest_after(self.greatest, step);
                Ok(())
            }
            Err(SinkFault) => {
                self.failed = true;
                Err(WriteFault::Device)
            }
        }
    }
    /// Gives the sink all that is held back, so that it has taken the whole text. More steps may follow. Takes time linear in
    /// what is held back.
    ///
    /// # Errors
    /// As [`ProofWriter::step`].
    pub fn finish(&mut self) -> Result<(), WriteFault>
        ensures taken { OnOk result (W.taken self.new.sink ≡ self.old.text) }
        ensures same { OnOk result
            ((self.new.text ≡ self.old.text) × (self.new.greatest ≡ self.old.greatest)) }
        ensures ok { OnOk result ((self.new.failed ≡ false)
            × (W.failures self.new.sink ≡ W.failures self.old.sink)) }

        ensures device { result ≡ Err WriteFault.Device → (self.new.failed ≡ true)
            × (W.failures self.new.sink ≡ W.failures self.old.sink + 1) }
        ensures cut_short { result ≡ Err WriteFault.Device
            → IsCutShort (W.taken self.new.sink) self.old.text }

        ensures failed { (result ≡ Err WriteFault.Failed) ↔ (self.old.failed ≡ true) }
        ensures unchanged { self.old.failed ≡ true → self.new ≡ self.old }

        ensures onward { IsBeginning (W.taken self.old.sink) (W.taken self.new.sink) }
    {
        if self.failed {
            return Err(WriteFault::Failed);
        }
        match self.buffer.flush(&mut self.sink) {
            Ok(()) => Ok(()),
            Err(SinkFault) => {
                self.failed = true;
                Err(WriteFault::Device)
            }
        }
    }

    /// The sink, as it is: what is held back is lost. Takes constant time.
    pub fn into_sink(self) -> W
        ensures { result ≡ self.sink }
    {
        self.sink
    }
}

/// Writes the lines of the steps of a proof, and gives the sink all of them. The formula has so many clauses. Takes time
/// linear in the literals and numbers of the steps, and no memory: the sink is given many lines at a time.
///
/// # Errors
/// [`SinkFault`] where a write of the sink failed: it has taken a beginning of the text.
pub fn write_proof<W: Sink, S: AsStep>(
    sink: &mut W,
    clauses: u64,
    steps: &[S],
) -> Result<(), SinkFault>
    requires { W.failures sink.old ≡ 0 }

    ensures taken { OnOk result
        (W.taken sink.new ≡ W.taken sink.old ++ proof_text clauses (map S.step steps.now)) }
    ensures ok { OnOk result (W.failures sink.new ≡ W.failures sink.old) }

    ensures cut_short { OnErr result (IsCutShort (W.taken sink.new)
        (W.taken sink.old ++ proof_text clauses (map S.step steps.now))) }
    ensures onward { OnErr result (IsBeginning (W.taken sink.old) (W.taken sink.new)) }
    ensures err { OnErr result (W.failures sink.new ≡ W.failures sink.old + 1) }
{
    let mut buffer = OutputBuffer::new();
    let mut greatest = clauses;
    for lender in steps {
        let step = lender.as_step();
        write_step(sink, &mut buffer, greatest, step)?;
        greatest = greatest_after(greatest, step);
    }
    buffer.flush(sink)
}
