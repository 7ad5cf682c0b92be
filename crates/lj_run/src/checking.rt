//! A check: a run whose outcome is printed.
ghost use Rattle.std.specs.Prelude.{◌≡◌, [], IfOk, IfErr, string_bytes};
ghost use Rattle.lj_clause.specs.ClauseMap.{FormulaValue};
ghost use Rattle.lj_clause.specs.Memory.{no_memory};
ghost use Rattle.lj_text.specs.Streams.{source_state};
ghost use Rattle.lj_clause.specs.Truth.{IsUnsatisfiable};
ghost use Rattle.lj_run.specs.FormulaReading.{GaveFormula};
ghost use Rattle.lj_run.specs.InTurn.{streams_by_seat};
ghost use Rattle.lj_run.specs.Explanation.{IsExplained};
ghost use Rattle.lj_run.specs.Checking.{LeavesAnswer, LeavesFault, verdict_of};
ghost use Rattle.lj_run.specs.Premise.{MayRun};
ghost use Rattle.lj_run.specs.Proof.{sink_state};
ghost use Rattle.lj_run.specs.declared.checking.CheckFault.TheVariants as check_faults;
ghost use Rattle.lj_run.specs.declared.checking.Verdict.TheVariants.{Verified};
ghost use Rattle.lj_run.specs.declared.outcome.RunFault.TheVariants as run_faults;

use crate::outcome::{Options, Outcome, ProofEnd, RunFault, Way};
use crate::printing::text_of;
use crate::running::run_by;
use crate::watch::Watch;
use lj_book::Steps;
use lj_text::{Sink, Source, write_all};
use std::alloc::{AllocError, Global};
use std::sync::Wait;
use std::thread::Threads;
use thiserror::Error;

/// The answer of a check.
#[derive(Clone, Copy, Debug, PartialEq, Eq)]
pub enum Verdict {
    /// The steps refute the formula.
    Verified,
    /// They don't.
    NotVerified,
}

/// What a check answers.
#[derive(Clone, Copy, Debug, PartialEq, Eq)]
pub struct Checked {
    pub verdict: Verdict,
    /// What became of the proof.
    pub proof: ProofEnd,
}

/// Why a check has no answer.
#[derive(Clone, Copy, Debug, PartialEq, Eq, Error)]
pub enum CheckFault {
    /// The run has no outcome, or there was no memory for its text. Nothing was printed.
    #[error("{0}")]
    Run(RunFault),
    /// The output failed. It took a beginning of what was to be printed.
    #[error("cannot write")]
    CannotWrite,
}

impl From<RunFault> for CheckFault {
    ghost from_gives = { λ fault check. check ≡ check_faults.Run fault };

    fn from(fault: RunFault) -> CheckFault {
        CheckFault::Run(fault)
    }
}

impl From<AllocError> for CheckFault {
    ghost from_gives = { λ _ check. check ≡ check_faults.Run (run_faults.NoMemory no_memory) };

    fn from(e: AllocError) -> CheckFault {
        CheckFault::Run(e.into())
    }
}

/// Reads a formula, runs the streams on it in this way, the closing one last, and prints a line for each stream and then the
/// verdict. What is printed is made whole before any of it is written. Where a sink of the proof is handed in, the proof is
/// written before that; that it fails changes nothing of what is printed.
///
/// Takes the time of the run, and of the text that is printed.
///
/// # Errors
/// The fault of the formula's text, a read of it that failed, want of memory outside the streams, on threads
/// [`RunFault::Unconfirmed`], or an output that failed.
pub fn check<
    R: Threads + Wait + Sync,
    F: Source,
    S: Source + Drop + Send,
    V: Watch + Sync,
    P: Sink,
    O: Sink,
>(
    rt: &R,
    alloc: Global,
    formula: &mut F,
    streams: Vec<S>,
    closing: Option<S>,
    options: &Options,
    way: Way,
    watch: &V,
    proof: &mut Option<P>,
    out: &mut O,
) -> Result<Checked, CheckFault>
    requires run { MayRun (source_state F.given F.ended F.rest F.failures formula.old)
        (source_state S.given S.ended S.rest S.failures) (sink_state P.taken P.failures)
        (streams_by_seat streams.items closing) proof.old }
    requires out_unfailed { O.failures out.old ≡ 0 }

    ensures answer { IfOk result (LeavesAnswer way
        (source_state F.given F.ended F.rest F.failures formula.old)
        (source_state F.given F.ended F.rest F.failures formula.new)
        (source_state S.given S.ended S.rest S.failures) (sink_state P.taken P.failures)
        options.now.max_steps options.now.trim (streams_by_seat streams.items closing)
        proof.old proof.new (sink_state O.taken O.failures) out.old out.new) }
    ensures refuted { IfOk result (λ checked. checked.verdict ≡ Verified
        → (f : FormulaValue) × IsUnsatisfiable f
        × GaveFormula (source_state F.given F.ended F.rest F.failures formula.old)
        (source_state F.given F.ended F.rest F.failures formula.new) f) }
    ensures fault { IfErr result (LeavesFault way
        (source_state F.given F.ended F.rest F.failures formula.old)
        (source_state F.given F.ended F.rest F.failures formula.new)
        (source_state S.given S.ended S.rest S.failures) (sink_state P.taken P.failures)
        options.now.max_steps options.now.trim (streams_by_seat streams.items closing)
        proof.old proof.new (sink_state O.taken O.failures) out.old out.new) }
{
    let (checked, _, _) = check_with_steps(
        rt, alloc, formula, streams, closing, options, way, watch, proof, out,
    )?;
    Ok(checked)
}

/// As [`check`], and hands out the steps of the run, so that its caller says when they are let go of, and its sentences on the
/// streams that ended at a line.
pub(crate) fn check_with_steps<
    R: Threads + Wait + Sync,
    F: Source,
    S: Source + Drop + Send,
    V: Watch + Sync,
    P: Sink,
    O: Sink,
>(
    rt: &R,
    alloc: Global,
    formula: &mut F,
    streams: Vec<S>,
    closing: Option<S>,
    options: &Options,
    way: Way,
    watch: &V,
    proof: &mut Option<P>,
    out: &mut O,
) -> Result<(Checked, Steps, String), CheckFault>
    requires run { MayRun (source_state F.given F.ended F.rest F.failures formula.old)
        (source_state S.given S.ended S.rest S.failures) (sink_state P.taken P.failures)
        (streams_by_seat streams.items closing) proof.old }
    requires out_unfailed { O.failures out.old ≡ 0 }

    ensures answer { IfOk result (λ told. LeavesAnswer way
        (source_state F.given F.ended F.rest F.failures formula.old)
        (source_state F.given F.ended F.rest F.failures formula.new)
        (source_state S.given S.ended S.rest S.failures) (sink_state P.taken P.failures)
        options.now.max_steps options.now.trim (streams_by_seat streams.items closing)
        proof.old proof.new (sink_state O.taken O.failures) out.old out.new told.0) }
    ensures explained { IfOk result (λ told. IsExplained S options.now.explain (O.taken out.old)
        (O.taken out.new) [] (string_bytes told.2)) }
    ensures fault { IfErr result (LeavesFault way
        (source_state F.given F.ended F.rest F.failures formula.old)
        (source_state F.given F.ended F.rest F.failures formula.new)
        (source_state S.given S.ended S.rest S.failures) (sink_state P.taken P.failures)
        options.now.max_steps options.now.trim (streams_by_seat streams.items closing)
        proof.old proof.new (sink_state O.taken O.failures) out.old out.new) }
{
    let outcome = run_by(
        rt, alloc, formula, streams, closing, options, way, watch, proof,
    )?;
    let text = text_of(alloc, &outcome)?;
    match write_all(out, text.as_bytes()) {
        Ok(()) => {
            let checked = Checked {
                verdict: verdict_on(&outcome),
                proof: outcome.proof,
            };
            Ok((checked, outcome.steps, outcome.explanation))
        }
        Err(_) => Err(CheckFault::CannotWrite),
    }
}

/// The verdict of an outcome.
fn verdict_on<S>(outcome: &Outcome<S>) -> Verdict
    ensures { result ≡ verdict_of outcome.now.verified }
{
    match outcome.verified {
        Some(_) => Verdict::Verified,
        None => Verdict::NotVerified,
    }
}
