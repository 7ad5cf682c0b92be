//! Sentences on the streams that ended at a line.
ghost use Rattle.std.specs.Prelude.{◌≡◌, ◌++◌, ℕ, List, IfOk, string_bytes};
ghost use Rattle.lj_run.specs.Explanation.{AreSentences, IsExplanation, MaySay, sentence};

use crate::line_text::line_text;
use crate::outcome::{End, LineEnd, Options, Report};
use crate::reasons::{ClosedSeat, fault_in_words};
use lj_book::Book;
use lj_clause::NoMemory;
use lj_text::Line;
use std::alloc::Global;

/// A sentence on each stream that ended at a line, in their order, where the options ask for it. A sentence for which there is no
/// memory is left out. Takes O(log n) time for each literal of the clauses that a refused line names.
pub(crate) fn explanation_of<S>(
    alloc: Global,
    options: &Options,
    book: &Book,
    reports: &[Report<S>],
) -> String
    ensures { IsExplanation options.now.explain reports.now (string_bytes result) }
{
    if options.explain {
        sentences_of(alloc, options.max_steps, book, reports)
    } else {
        String::new(alloc)
    }
}

/// The sentences on the streams of a closed book that took so many additions at most.
fn sentences_of<S>(alloc: Global, max_steps: u32, book: &Book, reports: &[Report<S>]) -> String
    ensures { AreSentences 0 reports.now (string_bytes result) }
{
    let mut told = String::new(alloc);
    for (stream, report) in reports.iter().enumerate() {
        let seat = ClosedSeat {
            alloc,
            book,
            stream,
            max_steps,
        };
        say(&mut told, &seat, report);
    }
    told
}

/// Puts the sentence on the stream of a seat behind the text, where it ended at a line and there is memory for the sentence.
fn say<S>(told: &mut String, seat: &ClosedSeat<'_>, report: &Report<S>)
    ensures { (one : List ℕ) × (string_bytes told.new ≡ string_bytes told.old ++ one)
        × MaySay seat.now.stream report.now.end one }
{
    let End::Line(line, why) = report.end else {
        return;
    };
    let Ok(sentence) = sentence_on(seat, line, why, &report.refused) else {
        return;
    };
    let _ = told.push_str(sentence.as_str());
}

/// The sentence on a stream that ended at its line of this number.
fn sentence_on(
    seat: &ClosedSeat<'_>,
    line: u64,
    why: LineEnd,
    refused: &Option<Line>,
) -> Result<String, NoMemory>
    ensures { IfOk result (λ text. (what : List ℕ)
        × (string_bytes text ≡ sentence seat.now.stream line what)) }
{
    let what = reason_of(seat, why, refused)?;
    let stream = seat.stream;
    Ok(format!(in seat.alloc; "lratjoin: stream {stream}, line {line}: {what}\n")?)
}

/// Why a line wasn't accepted, in words, with its text where it was refused.
fn reason_of(
    seat: &ClosedSeat<'_>,
    why: LineEnd,
    refused: &Option<Line>,
) -> Result<String, NoMemory> {
    let alloc = seat.alloc;
    match (why, refused) {
        (LineEnd::Refused(refusal), Some(line)) => {
            let reason = seat.reason_of(line, refusal)?;
            let text = line_text(alloc, line)?;
            Ok(format!(in alloc; "{reason}; the line is: {text}")?)
        }
        (LineEnd::Refused(refusal), None) => Ok(format!(in alloc; "{refusal}")?),
        (LineEnd::Fault(kind), _) => Ok(String::from_str(alloc, fault_in_words(kind))?),
        (LineEnd::ReadFailed, _) => Ok(String::from_str(alloc, "a read of the stream failed")?),
    }
}
