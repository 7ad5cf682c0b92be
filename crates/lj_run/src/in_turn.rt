//! The run of streams one after the other, on one book.
ghost use Rattle.std.specs.Prelude.{◌≡◌, ◌≤◌, length, All, IfOk, IfErr, OnErr, string_bytes};
ghost use Rattle.lj_text.specs.Streams.{source_state};
ghost use Rattle.lj_run.specs.FormulaReading.{IsFormulaFault};
ghost use Rattle.lj_run.specs.InTurn.{IsReport, RunInTurn, streams_by_seat};
ghost use Rattle.lj_run.specs.Explanation.{IsExplanation};
ghost use Rattle.lj_run.specs.Premise.{MayRun};
ghost use Rattle.lj_run.specs.Proof.{sink_state};
ghost use Rattle.lj_run.specs.Ways.{IsAnswerBy};
ghost use Rattle.lj_run.specs.declared.outcome.Way.TheVariants.{InTurn};

use crate::book_seat::BookSeat;
use crate::explaining::explanation_of;
use crate::outcome::{Options, Outcome, Report, RunFault};
use crate::proving::prove;
use crate::reading::read_formula;
use crate::stream::run_stream;
use crate::watch::{StreamWatch, Watch};
use lj_book::Book;
use lj_book::laws::{history_is_legal, live_is_the_replay};
use lj_clause::MAX_VARIABLE;
use lj_text::{Sink, Source};
use std::alloc::{AllocFailed, Global};
use std::sync::Wait;

/// Reads a formula, and runs the streams one after the other on one book of it, each under a seat of its own: the closing one
/// has the last seat, and runs last. Where a sink is handed in, the proof is written into it: the lines of the steps up to the
/// first addition of the empty clause, trimmed where the options ask for it, and of all steps where none adds it. Takes the
/// time of the readers and of the book's calls for their lines, and of trimming where that is asked for.
///
/// # Errors
/// The fault of the formula's text, a read of it that failed, or want of memory outside the streams.
pub fn run_in_turn<R: Wait, F: Source, S: Source + Drop, V: Watch, W: Sink>(
    rt: &R,
    alloc: Global,
    formula: &mut F,
    streams: Vec<S>,
    closing: Option<S>,
    options: &Options,
    watch: &V,
    out: &mut Option<W>,
) -> Result<Outcome<S>, RunFault>
    requires { MayRun (source_state F.given F.ended F.rest F.failures formula.old)
        (source_state S.given S.ended S.rest S.failures) (sink_state W.taken W.failures)
        (streams_by_seat streams.items closing) out.old }

    ensures outcome { IfOk result (IsAnswerBy InTurn
        (source_state F.given F.ended F.rest F.failures formula.old)
        (source_state F.given F.ended F.rest F.failures formula.new)
        (source_state S.given S.ended S.rest S.failures)
        (sink_state W.taken W.failures) options.now.max_steps options.now.trim
        (streams_by_seat streams.items closing) out.old out.new) }
    ensures explained { IfOk result (λ outcome. IsExplanation options.now.explain
        outcome.reports.items (string_bytes outcome.explanation)) }
    ensures fault { IfErr result
        (IsFormulaFault (source_state F.given F.ended F.rest F.failures formula.old)
        (source_state F.given F.ended F.rest F.failures formula.new)) }
    ensures untouched { OnErr result (out.new ≡ out.old) }
{
    let formula = read_formula(rt, alloc, formula)?;
    let clauses = formula.len() as u64;
    let streams = by_seat(streams, closing)?;
    let book = Book::open(alloc, formula, streams.len() as u32, options.max_steps)?;
    let mut seat = BookSeat::new(alloc, book);
    let reports = run_all(rt, alloc, watch, &mut seat, streams)?;
    let book = seat.book;
    history_is_legal(&book);
    live_is_the_replay(&book);
    let verified = book.verified()?;
    let explanation = explanation_of(alloc, options, &book, &reports);
    let steps = book.into_steps();
    let proof = prove(alloc, clauses, &verified, options.trim, &steps, out);
    Ok(Outcome {
        reports,
        verified,
        steps,
        proof,
        explanation,
    })
}

/// The streams by their seats, the closing one last.
fn by_seat<S: Drop>(streams: Vec<S>, closing: Option<S>) -> Result<Vec<S>, AllocFailed<S>>
    ensures { IfOk result (λ all. all.items ≡ streams_by_seat streams.items closing) }
{
    let mut all = streams;
    if let Some(last) = closing {
        all.push(last)?;
    }
    Ok(all)
}

/// Runs the streams in turn, the first under seat 0, and reports of each.
fn run_all<R: Wait, S: Source + Drop, V: Watch>(
    rt: &R,
    alloc: Global,
    watch: &V,
    seat: &mut BookSeat,
    streams: Vec<S>,
) -> Result<Vec<Report<S>>, AllocFailed<Report<S>>>
    requires at_most { length streams.items ≤ 1024 }
    requires unfailed { All (λ stream. S.failures stream ≡ 0) streams.items }
    ensures reports { IfOk result
        (λ reports. RunInTurn (source_state S.given S.ended S.rest S.failures) 0 streams.items
        seat.old.book reports.items seat.new.book) }
    ensures formula { seat.new.book.formula ≡ seat.old.book.formula }
{
    let mut reports = Vec::new(alloc);
    let mut number = 0;
    for stream in streams {
        reports.push(run_of(rt, alloc, watch, seat, number, stream))?;
        number += 1;
    }
    Ok(reports)
}

/// Runs a stream under the seat of this number, and reports of it.
fn run_of<R: Wait, S: Source, V: Watch>(
    rt: &R,
    alloc: Global,
    watch: &V,
    seat: &mut BookSeat,
    number: u32,
    stream: S,
) -> Report<S>
    requires { S.failures stream ≡ 0 }
    ensures report { IsReport (source_state S.given S.ended S.rest S.failures) number
        seat.old.book seat.new.book stream result }
    ensures formula { seat.new.book.formula ≡ seat.old.book.formula }
{
    seat.number = number;
    let watch = StreamWatch {
        watch,
        stream: number,
    };
    run_stream(rt, alloc, &watch, seat, stream)
}
