//! The run of streams in the way that is asked.
ghost use Rattle.std.specs.Prelude.{◌≡◌, IfOk, IfErr, OnErr, string_bytes};
ghost use Rattle.lj_text.specs.Streams.{source_state};
ghost use Rattle.lj_run.specs.InTurn.{streams_by_seat};
ghost use Rattle.lj_run.specs.Explanation.{IsExplanation};
ghost use Rattle.lj_run.specs.Premise.{MayRun};
ghost use Rattle.lj_run.specs.Proof.{sink_state};
ghost use Rattle.lj_run.specs.Ways.{IsAnswerBy, IsFaultBy};

use crate::in_turn::run_in_turn;
use crate::joint::run_joint;
use crate::outcome::{Options, Outcome, RunFault, Way};
use crate::watch::Watch;
use lj_share::NoGate;
use lj_text::{Sink, Source};
use std::alloc::Global;
use std::sync::Wait;
use std::thread::Threads;

/// Reads a formula, and runs the streams on it in this way.
pub(crate) fn run_by<
    R: Threads + Wait + Sync,
    F: Source,
    S: Source + Drop + Send,
    V: Watch + Sync,
    W: Sink,
>(
    rt: &R,
    alloc: Global,
    formula: &mut F,
    streams: Vec<S>,
    closing: Option<S>,
    options: &Options,
    way: Way,
    watch: &V,
    out: &mut Option<W>,
) -> Result<Outcome<S>, RunFault>
    requires { MayRun (source_state F.given F.ended F.rest F.failures formula.old)
        (source_state S.given S.ended S.rest S.failures) (sink_state W.taken W.failures)
        (streams_by_seat streams.items closing) out.old }

    ensures outcome { IfOk result (IsAnswerBy way
        (source_state F.given F.ended F.rest F.failures formula.old)
        (source_state F.given F.ended F.rest F.failures formula.new)
        (source_state S.given S.ended S.rest S.failures)
        (sink_state W.taken W.failures) options.now.max_steps options.now.trim
        (streams_by_seat streams.items closing) out.old out.new) }
    ensures explained { IfOk result (λ outcome. IsExplanation options.now.explain
        outcome.reports.items (string_bytes outcome.explanation)) }
    ensures fault { IfErr result (IsFaultBy way
        (source_state F.given F.ended F.rest F.failures formula.old)
        (source_state F.given F.ended F.rest F.failures formula.new)
        (source_state S.given S.ended S.rest S.failures) options.now.max_steps
        (streams_by_seat streams.items closing)) }
    ensures untouched { OnErr result (out.new ≡ out.old) }
{
    match way {
        Way::OnThreads => run_joint(
            rt, alloc, formula, streams, closing, options, &NoGate, watch, out,
        ),
        Way::InTurn => run_in_turn(rt, alloc, formula, streams, closing, options, watch, out),
    }
}
