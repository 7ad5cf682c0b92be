//! The run of one stream.
ghost use Rattle.std.specs.Prelude.{◌≡◌, ◌+◌, ◌<◌, ◌≤◌, None, length};
ghost use Rattle.lj_text.specs.Streams.{source_state};
ghost use Rattle.lj_run.specs.Run.{IsStreamRun};
ghost use Rattle.lj_run.specs.inner.Block.{BlockEntered};
ghost use Rattle.lj_run.specs.inner.Joint.{report_of};
ghost use Rattle.lj_run.specs.inner.Tally.{with_count, with_end, with_lines, missed_at};
ghost use Rattle.lj_text.specs.declared.lines.fault.LineFaultKind.TheVariants as kinds;
ghost use Rattle.lj_run.specs.declared.outcome.End.TheVariants as ends;
ghost use Rattle.lj_run.specs.declared.outcome.LineEnd.TheVariants.{Fault};

use crate::block::{fill, take_back};
use crate::entering::Entering;
use crate::outcome::{End, LineEnd, Report};
use crate::reading::{Miss, Next, PIECE, next_line};
use crate::watch::{StreamWatch, Watch};
use lj_clause::{MAX_VARIABLE, NoMemory};
use lj_share::Numbered;
use lj_text::{Line, LineFaultKind, LineReader, Source};
use std::alloc::Global;
use std::sync::Wait;

/// What came of a stream: how many of its additions, deletions and imports were accepted, how it ended, and the line that was
/// refused, where it ended so.
#[derive(Debug, Drop)]
pub(crate) struct Tally {
    pub added: u64,
    pub deleted: u64,
    pub imported: u64,
    pub end: End,
    pub refused: Option<Line>,
}

/// Runs a stream through a seat, and reports of it.
pub(crate) fn run_stream<E: Entering, R: Wait, S: Source, V: Watch>(
    rt: &R,
    alloc: Global,
    watch: &StreamWatch<'_, V>,
    seat: &mut E,
    stream: S,
) -> Report<S>
    requires { S.failures stream ≡ 0 }
    ensures { IsStreamRun (λ lines. E.entered seat.old lines seat.new) (E.refused seat.new)
        (E.stopped seat.new) (E.goes_on seat.new)
        (source_state S.given S.ended S.rest S.failures) stream result }
{
    let mut source = stream;
    let tally = run_lines(rt, alloc, watch, seat, &mut source);
    Report {
        added: tally.added,
        deleted: tally.deleted,
        imported: tally.imported,
        end: tally.end,
        refused: tally.refused,
        source,
    }
}

/// Enters the lines of a source, block after block, until the verdict stands, the source ends or a line isn't accepted. Looks
/// for the verdict before each block and each pull, and once more at the end. Takes the time of the source's pulls, of the reader
/// and of the seat's calls for the lines.
fn run_lines<E: Entering, R: Wait, S: Source, V: Watch>(
    rt: &R,
    alloc: Global,
    watch: &StreamWatch<'_, V>,
    seat: &mut E,
    source: &mut S,
) -> Tally
    requires { S.failures source.old ≡ 0 }
    ensures { IsStreamRun (λ lines. E.entered seat.old lines seat.new) (E.refused seat.new)
        (E.stopped seat.new) (E.goes_on seat.new)
        (source_state S.given S.ended S.rest S.failures) source.old
        (report_of result source.new) }
{
    let mut reader = LineReader::new(alloc, MAX_VARIABLE);
    let mut scratch = [0; PIECE];
    let mut ended = false;
    let mut lines = Vec::new(alloc);
    // Of the next line, where the reader has met it behind a block.
    let mut fault = None;
    let mut tally = Tally {
        added: 0,
        deleted: 0,
        imported: 0,
        end: End::Stopped,
        refused: None,
    };
    for _ in rt.forever() {
        if seat.is_stopped() {
            return tally.ending(End::Stopped);
        }
        if let Some(behind) = fault {
            return tally.ending(missed(Miss::AtFault(behind), reader.at()));
        }
        let line = match next_line(watch, source, &mut reader, &mut ended, &mut scratch) {
            Ok(Next::Line(line)) => line,
            Ok(Next::More) => continue,
            Ok(Next::End) => return tally.ending(End::Ended),
            Err(miss) => return tally.ending(missed(miss, reader.at())),
        };
        match fill(&mut lines, &mut reader, line, E::BLOCK) {
            Ok(behind) => fault = behind,
            Err(e) => return tally.ending(out_of_memory(reader.at(), e)),
        }
        if let Some(ending) = enter_block(rt, watch, seat, &mut lines, &mut tally) {
            return tally.ending_at(ending.0, ending.1);
        }
        take_back(&mut lines, &mut reader);
    }
    unreachable!()
}

/// Enters the lines of a block and counts those that were entered; gives the stream's end, where it ends among them, and the
/// line that was refused, which is taken out of the block.
fn enter_block<E: Entering, R: Wait, V: Watch>(
    rt: &R,
    watch: &StreamWatch<'_, V>,
    seat: &mut E,
    lines: &mut Vec<Numbered>,
    tally: &mut Tally,
) -> Option<(End, Option<Line>)>
    requires { tally.old.added + tally.old.deleted + tally.old.imported ≤ E.known seat.old }
    ensures entered { BlockEntered (λ lines. E.entered seat.old lines seat.new)
        (E.refused seat.new) (E.stopped seat.new) (E.goes_on seat.new) lines.old.items tally.old
        tally.new result }
    ensures known { tally.new.added + tally.new.deleted + tally.new.imported
        ≤ E.known seat.new }
{
    let (count, refusal) = seat.enter_lines(rt, lines.as_slice());
    count_lines(tally, &lines[..count], seat.entries());
    watch.entered(count);
    match refusal {
        Some(refusal) => {
            let Numbered { at, line } = lines.swap_remove(count);
            Some((End::Line(at, LineEnd::Refused(refusal)), Some(line)))
        }
        None if count < lines.len() => Some((End::Stopped, None)),
        None => None,
    }
}

/// Counts lines that were entered, where there are so many entries with them.
fn count_lines(tally: &mut Tally, lines: &[Numbered], entries: u64)
    requires { tally.old.added + tally.old.deleted + tally.old.imported + length lines.now
        ≤ entries }
    ensures counted { tally.new ≡ with_lines tally.old lines.now }
    ensures sum { tally.new.added + tally.new.deleted + tally.new.imported
        ≡ tally.old.added + tally.old.deleted + tally.old.imported + length lines.now }
{
    for numbered in lines {
        tally.count(&numbered.line, entries);
    }
}

impl Tally {
    /// Counts a line, which is one of so many entries.
    fn count(&mut self, line: &Line, entries: u64)
        requires { self.old.added + self.old.deleted + self.old.imported < entries }
        ensures counted { self.new ≡ with_count self.old line.now }
        ensures sum { self.new.added + self.new.deleted + self.new.imported
            ≡ self.old.added + self.old.deleted + self.old.imported + 1 }
    {
        match line {
            Line::Add(_) => self.added += 1,
            Line::Delete(_) => self.deleted += 1,
            Line::Import { .. } => self.imported += 1,
        }
    }

    /// The tally of a stream that ended so.
    fn ending(self, end: End) -> Tally
        ensures { result ≡ with_end self end None }
    {
        self.ending_at(end, None)
    }

    /// The tally of a stream that ended so, with the line that was refused.
    fn ending_at(self, end: End, refused: Option<Line>) -> Tally
        ensures { result ≡ with_end self end refused }
    {
        Tally {
            added: self.added,
            deleted: self.deleted,
            imported: self.imported,
            end,
            refused,
        }
    }
}

/// The end of a stream whose next line is missed, where this line is being read.
fn missed(miss: Miss, at: u64) -> End
    ensures { result ≡ missed_at at miss }
{
    match miss {
        Miss::Failed => End::Line(at, LineEnd::ReadFailed),
        Miss::AtFault(fault) => End::Line(fault.line, LineEnd::Fault(fault.kind)),
    }
}

/// The end of a stream for whose line of this number there is no memory.
fn out_of_memory(at: u64, e: NoMemory) -> End
    ensures { result ≡ ends.Line at (Fault (kinds.NoMemory e)) }
{
    End::Line(at, LineEnd::Fault(LineFaultKind::NoMemory(e)))
}
