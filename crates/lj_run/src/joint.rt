//! The run of streams beside one another, on one shared book.
ghost use Rattle.std.specs.Prelude.{◌≡◌, IfOk, IfErr, OnErr, string_bytes};
ghost use Rattle.lj_text.specs.Streams.{source_state};
ghost use Rattle.lj_run.specs.InTurn.{streams_by_seat};
ghost use Rattle.lj_run.specs.Joint.{IsJointFault};
ghost use Rattle.lj_run.specs.Explanation.{IsExplanation};
ghost use Rattle.lj_run.specs.Premise.{MayRun};
ghost use Rattle.lj_run.specs.Proof.{sink_state};
ghost use Rattle.lj_run.specs.Ways.{IsAnswerBy};
ghost use Rattle.lj_run.specs.declared.outcome.Way.TheVariants.{OnThreads};

mod opened;
mod worker;

use crate::explaining::explanation_of;
use crate::joint::opened::run_opened;
use crate::outcome::{Options, Outcome, RunFault};
use crate::proving::prove;
use crate::reading::read_formula;
use crate::watch::Watch;
use lj_book::laws::{history_is_legal, live_is_the_replay};
use lj_share::{Gate, OpeningParts};
use lj_text::{Sink, Source};
use std::alloc::Global;
use std::marker::Brand;
use std::sync::Wait;
use std::thread::Threads;

/// Reads a formula, and runs the streams beside one another on one shared book of it, each under a seat of its own and by a
/// worker of its own. The closing one has the last seat, and runs once all others have ended. The gate stands round each
/// line. Where a sink is handed in, the proof is written into it: the lines of the steps up to the first addition of the
/// empty clause, trimmed where the options ask for it, and of all steps where none adds it.
///
/// The workers run on threads of their own beside one another, and that of the closing stream on the caller's. Where a thread
/// is refused, the run answers want of memory once the workers that were started have ended. Takes the
/// time of the readers and of the book's calls for their lines, and of trimming where that is asked for.
///
/// # Errors
/// The fault of the formula's text, a read of it that failed, want of memory outside the streams, or
/// [`RunFault::Unconfirmed`]. After an error the sink is as it was.
pub fn run_joint<
    R: Threads + Wait + Sync,
    F: Source,
    S: Source + Drop + Send,
    G: Gate + Sync,
    V: Watch + Sync,
    W: Sink,
>(
    rt: &R,
    alloc: Global,
    formula: &mut F,
    streams: Vec<S>,
    closing: Option<S>,
    options: &Options,
    gate: &G,
    watch: &V,
    out: &mut Option<W>,
) -> Result<Outcome<S>, RunFault>
    requires { MayRun (source_state F.given F.ended F.rest F.failures formula.old)
        (source_state S.given S.ended S.rest S.failures) (sink_state W.taken W.failures)
        (streams_by_seat streams.items closing) out.old }

    ensures outcome { IfOk result (IsAnswerBy OnThreads
        (source_state F.given F.ended F.rest F.failures formula.old)
        (source_state F.given F.ended F.rest F.failures formula.new)
        (source_state S.given S.ended S.rest S.failures)
        (sink_state W.taken W.failures) options.now.max_steps options.now.trim
        (streams_by_seat streams.items closing) out.old out.new) }
    ensures explained { IfOk result (λ outcome. IsExplanation options.now.explain
        outcome.reports.items (string_bytes outcome.explanation)) }
    ensures fault { IfErr result (IsJointFault
        (source_state F.given F.ended F.rest F.failures formula.old)
        (source_state F.given F.ended F.rest F.failures formula.new)
        (source_state S.given S.ended S.rest S.failures) options.now.max_steps
        (streams_by_seat streams.items closing)) }
    ensures untouched { OnErr result (out.new ≡ out.old) }
{
    let formula = read_formula(rt, alloc, formula)?;
    let clauses = formula.len() as u64;
    let seats = streams.len() + usize::from(closing.is_some());
    let opening_parts = OpeningParts::new(alloc, seats as u32)?;
    let (reports, book) = run_opened::<Brand, _, _, _, _>(
        rt,
        alloc,
        opening_parts,
        formula,
        streams,
        closing,
        options.max_steps,
        gate,
        watch,
    )?;
    history_is_legal(&book);
    live_is_the_replay(&book);
    let verified = book.verified()?;
    let explanation = explanation_of(alloc, options, &book, &reports);
    let steps = book.into_steps();
    let proof = prove(alloc, clauses, &verified, options.trim, &steps, out);
    Ok(Outcome {
        reports,
        verified,
        steps,
        proof,
        explanation,
    })
}
