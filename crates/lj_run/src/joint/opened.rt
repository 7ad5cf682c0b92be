//! The run on one opening of the shared book.
ghost use Rattle.std.specs.Prelude.{◌≡◌, [], length, map, All, IfOk, IfErr};
ghost use Rattle.std.specs.List.{zip, list_all, AllZip};
ghost use Rattle.lj_text.specs.Streams.{source_state};
ghost use Rattle.lj_run.specs.InTurn.{streams_by_seat};
ghost use Rattle.lj_run.specs.Joint.{IsBookOfRun};
ghost use Rattle.lj_run.specs.inner.Joint.{IsBookless, HasRun, is_confirmed};
ghost use Rattle.lj_run.specs.Premise.{MayRunStreams};
ghost use Rattle.lj_run.specs.Run.{has_verdict};

use crate::joint::worker::{Ran, run_worker};
use crate::outcome::{End, Report, RunFault};
use crate::watch::Watch;
use lj_book::Book;
use lj_clause::{Formula, NoMemory};
use lj_share::{BookId, Gate, OpeningParts, Seat, Shared};
use lj_text::Source;
use std::alloc::{AllocError, Global};
use std::snapshot::Snapshot;
use std::sync::Wait;
use std::thread::{self, Promise, Threads};

/// Runs the streams on a new shared book of the formula, and gives their reports and the book.
///
/// # Errors
/// Want of memory outside the streams, and [`RunFault::Unconfirmed`].
pub(crate) fn run_opened<
    L: BookId + Send + Sync,
    R: Threads + Wait + Sync,
    S: Source + Drop + Send,
    G: Gate + Sync,
    V: Watch + Sync,
>(
    rt: &R,
    alloc: Global,
    opening_parts: OpeningParts,
    formula: Formula,
    streams: Vec<S>,
    closing: Option<S>,
    max_steps: u32,
    gate: &G,
    watch: &V,
) -> Result<(Vec<Report<S>>, Book), RunFault>
    requires name { opening_parts.name ≡ L.name }
    requires parts { (opening_parts.parts ≡ L.parts)
        × (opening_parts.parts ≡ length (streams_by_seat streams.items closing)) }
    requires lists { opening_parts.lists ≡ L.lists }
    requires log { opening_parts.log ≡ L.log }
    requires formula { formula ≡ L.formula }
    requires seats { L.seats ≡ length (streams_by_seat streams.items closing) }
    requires limit { max_steps ≡ L.max_steps }
    requires streams { MayRunStreams (source_state S.given S.ended S.rest S.failures)
        (streams_by_seat streams.items closing) }
    ensures ran { IfOk result
        (λ ran. IsBookOfRun (source_state S.given S.ended S.rest S.failures) formula max_steps
        (streams_by_seat streams.items closing) (has_verdict ran.1) ran.0.items ran.1) }
    ensures fault { IfErr result (IsBookless (source_state S.given S.ended S.rest S.failures)
        formula max_steps (streams_by_seat streams.items closing)) }
{
    let count = streams.len() + usize::from(closing.is_some());
    let (shared, seats) = Shared::<L>::open(
        alloc,
        opening_parts,
        formula,
        count as u32,
        max_steps,
    )?;
    let ran = run_all(rt, alloc, &shared, gate, watch, seats, streams, closing)?;
    let (seats, reports) = parted(alloc, ran)?;
    let Ok(closed) = shared.close(seats) else {
        unreachable!()
    };
    if !are_confirmed(closed.book(), &reports) {
        return Err(RunFault::Unconfirmed);
    }
    Ok((reports, closed.into_book()))
}

/// Runs the streams beside one another, and then the closing one, each under its seat.
fn run_all<
    L: BookId + Send + Sync,
    R: Threads + Wait + Sync,
    S: Source + Drop + Send,
    G: Gate + Sync,
    V: Watch + Sync,
>(
    rt: &R,
    alloc: Global,
    shared: &Shared<L>,
    gate: &G,
    watch: &V,
    seats: Vec<Seat<L>>,
    streams: Vec<S>,
    closing: Option<S>,
) -> Result<Vec<Ran<L, S>>, NoMemory>
    requires seats { length seats.items ≡ length (streams_by_seat streams.items closing) }
    requires fresh { All (λ seat. seat.calls ≡ []) seats.items }
    requires unfailed { All (λ stream. S.failures stream ≡ 0)
        (streams_by_seat streams.items closing) }
    ensures { IfOk result (λ ran. AllZip (λ job r. HasRun
        (source_state S.given S.ended S.rest S.failures) L.formula L.seats L.max_steps job r.seat
        r.report)
        (zip seats.items (streams_by_seat streams.items closing)) ran.items) }
{
    let mut seats = seats;
    match closing {
        None => run_beside(
            rt,
            shared,
            alloc,
            gate,
            watch,
            jobs_of(alloc, seats, streams)?,
        ),
        Some(stream) => {
            let Some(seat) = seats.pop() else {
                unreachable!()
            };
            let mut ran = run_beside(
                rt,
                shared,
                alloc,
                gate,
                watch,
                jobs_of(alloc, seats, streams)?,
            )?;
            ran.push(run_worker(rt, alloc, shared, gate, watch, (seat, stream)))?;
            Ok(ran)
        }
    }
}

/// Each stream with its seat.
fn jobs_of<L: BookId, S: Drop>(
    alloc: Global,
    seats: Vec<Seat<L>>,
    streams: Vec<S>,
) -> Result<Vec<(Seat<L>, S)>, NoMemory>
    ensures { IfOk result (λ jobs. jobs.items ≡ zip seats.items streams.items) }
{
    let mut jobs = Vec::new(alloc);
    for job in seats.into_iter().zip(streams) {
        jobs.push(job)?;
    }
    Ok(jobs)
}

/// What a worker on a thread of its own leaves of the seat and the stream that it was given.
#[derive(Drop)]
struct RunsBeside<L: BookId, S>(Snapshot<(Seat<L>, S)>);

impl<L: BookId, S: Source> Promise<Ran<L, S>> for RunsBeside<L, S> {
    ghost kept_by = { λ promise ran. HasRun (source_state S.given S.ended S.rest S.failures)
        L.formula L.seats L.max_steps promise.0.value ran.seat ran.report };
}

/// Runs streams under their seats, each by a worker on a thread of its own. Where a thread is refused, it answers once the
/// workers that were started have ended.
fn run_beside<
    L: BookId + Send + Sync,
    R: Threads + Wait + Sync,
    S: Source + Drop + Send,
    G: Gate + Sync,
    V: Watch + Sync,
>(
    rt: &R,
    shared: &Shared<L>,
    alloc: Global,
    gate: &G,
    watch: &V,
    jobs: Vec<(Seat<L>, S)>,
) -> Result<Vec<Ran<L, S>>, NoMemory>
    requires fresh { All (λ job. job.0.calls ≡ []) jobs.items }
    requires unfailed { All (λ job. S.failures job.1 ≡ 0) jobs.items }
    ensures { IfOk result (λ ran. AllZip (λ job r. HasRun
        (source_state S.given S.ended S.rest S.failures) L.formula L.seats L.max_steps job r.seat
        r.report)
        jobs.items ran.items) }
{
    let ran = thread::scope(
        thread::scope_env(),
        rt,
        move |scope| -> Result<Vec<Ran<L, S>>, AllocError>
            requires { All (λ job. job.0.calls ≡ []) jobs.items
                × All (λ job. S.failures job.1 ≡ 0) jobs.items }
            ensures { IfOk result (λ ran. AllZip (λ job r. HasRun
                (source_state S.given S.ended S.rest S.failures) L.formula L.seats L.max_steps
                job r.seat r.report)
                jobs.items ran.items) }
        {
            let mut workers = Vec::with_capacity(alloc, jobs.len())?;
            for job in jobs {
                let promise = RunsBeside(Snapshot::of(&job));
                let work = move || run_worker(rt, alloc, shared, gate, watch, job);
                workers.push(scope.spawn_with(promise, work)?)?;
            }
            Ok(thread::join_promised(rt, workers)?)
        },
    )?;
    Ok(ran)
}

/// The seats and the reports of streams that ran.
fn parted<L: BookId, S: Drop>(
    alloc: Global,
    ran: Vec<Ran<L, S>>,
) -> Result<(Vec<Seat<L>>, Vec<Report<S>>), NoMemory>
    ensures seats { IfOk result (λ parts. parts.0.items ≡ map (λ r. r.seat) ran.items) }
    ensures reports { IfOk result (λ parts. parts.1.items ≡ map (λ r. r.report) ran.items) }
{
    let mut seats = Vec::new(alloc);
    let mut reports = Vec::new(alloc);
    for one in ran {
        let Ran { seat, report } = one;
        seats.push(seat)?;
        reports.push(report)?;
    }
    Ok((seats, reports))
}

/// Whether there is a verdict where a stream says so.
fn are_confirmed<S>(book: &Book, reports: &[Report<S>]) -> bool
    ensures { result ≡ list_all (λ r. is_confirmed (has_verdict book.now) r.end) reports.now }
{
    let verdict = book.verdict().is_some();
    reports
        .iter()
        .all(|report| verdict || report.end != End::Stopped)
}
