//! The worker of one stream on a shared book.
ghost use Rattle.std.specs.Prelude.{◌≡◌, [], length};
ghost use Rattle.lj_text.specs.Streams.{source_state};
ghost use Rattle.lj_run.specs.inner.Joint.{HasRun};

use crate::entering::Entering;
use crate::outcome::Report;
use crate::stream::run_stream;
use crate::watch::{StreamWatch, Watch};
use lj_book::Refusal;
use lj_share::{BookId, Gate, Numbered, Seat, Shared};
use lj_text::Source;
use std::alloc::Global;
use std::sync::Wait;

/// A seat of a shared book, and the gate round its lines.
#[derive(Drop)]
struct SharedSeat<'a, L: BookId, G> {
    shared: &'a Shared<L>,
    gate: &'a G,
    seat: Seat<L>,
}

impl<'a, L: BookId, G: Gate> Entering for SharedSeat<'a, L, G> {
    ghost use Rattle.std.specs.Prelude.{length};
    ghost use Rattle.lj_clause.specs.Truth.{IsUnsatisfiable};
    ghost use Rattle.lj_share.specs.Refusals.{IsLineRefused};
    ghost use Rattle.lj_run.specs.inner.Joint.{AreCallsFurther, no_calls_further, calls_further};

    const BLOCK: usize = 1024;

    ghost entered = { λ from lines to. AreCallsFurther from.seat lines to.seat };

    ghost refused = { λ s line e. IsLineRefused L.formula L.seats L.max_steps s.seat line e };

    ghost stopped = { λ _. IsUnsatisfiable L.formula };

    ghost goes_on = { λ _. Unit {0} };

    ghost known = { λ s. length s.seat.calls };

    fn is_stopped(&self) -> bool {
        self.shared.verdict_now().is_some()
    }

    fn entries(&self) -> u64 {
        self.seat.count()
    }

    fn enter_lines<R: Wait>(&mut self, rt: &R, lines: &[Numbered]) -> (usize, Option<Refusal>) {
        self.shared
            .enter_lines(rt, &mut self.seat, lines, self.gate)
    }

    ghost none = { λ s. no_calls_further s.seat };

    ghost further = { λ a b c xs ys. calls_further a.seat b.seat c.seat xs ys };
}

/// What comes of a stream: its seat, which has the calls of its lines, and its report.
#[derive(Drop)]
pub(crate) struct Ran<L: BookId, S> {
    pub seat: Seat<L>,
    pub report: Report<S>,
}

/// Runs a stream under its seat, and reports of it.
pub(crate) fn run_worker<L: BookId, R: Wait, S: Source, G: Gate, V: Watch>(
    rt: &R,
    alloc: Global,
    shared: &Shared<L>,
    gate: &G,
    watch: &V,
    job: (Seat<L>, S),
) -> Ran<L, S>
    requires unfailed { S.failures job.1 ≡ 0 }
    requires fresh { job.0.calls ≡ [] }
    ensures { HasRun (source_state S.given S.ended S.rest S.failures) L.formula L.seats
        L.max_steps job result.seat result.report }
{
    let (seat, source) = job;
    let watch = StreamWatch {
        watch,
        stream: seat.number(),
    };
    let mut entering = SharedSeat { shared, gate, seat };
    let report = run_stream(rt, alloc, &watch, &mut entering, source);
    Ran {
        seat: entering.seat,
        report,
    }
}
