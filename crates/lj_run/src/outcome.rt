//! What a run is given, and what comes of it.
ghost use Rattle.std.specs.Prelude.{◌≡◌};
ghost use Rattle.lj_clause.specs.Memory.{no_memory};
ghost use Rattle.lj_run.specs.declared.outcome.RunFault.TheVariants as run_faults;

use lj_book::{Refusal, Steps, Verified};
use lj_clause::NoMemory;
use lj_text::{CnfFault, Line, LineFaultKind};
use std::alloc::{AllocError, AllocFailed};
use std::error::Error;
use std::fmt;

/// What a run is asked for beside its inputs.
#[derive(Clone, Copy, Debug, PartialEq, Eq)]
pub struct Options {
    /// The most additions that the run accepts.
    pub max_steps: u32,
    /// Whether the written proof is to hold only what the empty clause needs.
    pub trim: bool,
    /// Whether the outcome is to have sentences on the streams that end at a line.
    pub explain: bool,
}

/// The way in which the streams of a run are run.
#[derive(Clone, Copy, Debug, PartialEq, Eq)]
pub enum Way {
    /// Beside one another on one shared book, each by a worker on a thread of its own.
    OnThreads,
    /// One after the other on one book, on one thread and without a lock.
    InTurn,
}

/// What came of a run that read its formula.
#[derive(Debug, Drop)]
pub struct Outcome<S> {
    /// A report for each stream, in their order.
    pub reports: Vec<Report<S>>,
    /// There exactly where the steps refute the formula.
    pub verified: Option<Verified>,
    /// The joint steps, in the order in which they were entered.
    pub steps: Steps,
    /// What became of the proof.
    pub proof: ProofEnd,
    /// A sentence on each stream that ended at a line, where the options ask for it. One for which there was no memory is left
    /// out.
    pub explanation: String,
}

/// What came of one stream. The counts are of accepted lines.
#[derive(Debug, Drop)]
pub struct Report<S> {
    pub added: u64,
    pub deleted: u64,
    pub imported: u64,
    /// How the stream ended.
    pub end: End,
    /// The line that the book refused, where the stream ended so.
    pub refused: Option<Line>,
    /// The stream, given back.
    pub source: S,
}

impl<S> fmt::Display for Report<S> {
    ghost use Rattle.std.specs.Prelude.{Some};
    ghost use Rattle.lj_run.specs.OutcomeText.{report_text};

    ghost output = { λ report. Some (report_text report) };

    fn fmt<W: fmt::Write>(&self, f: &mut fmt::Formatter<W>) -> fmt::Result {
        let added = self.added;
        let deleted = self.deleted;
        let imported = self.imported;
        let end = self.end;
        write!(
            f,
            "{added} added, {deleted} deleted, {imported} imported, {end}"
        )
    }
}

/// How a stream ended.
#[derive(Clone, Copy, Debug, PartialEq, Eq)]
pub enum End {
    /// All of its lines were read.
    Ended,
    /// The verdict stood before its next line.
    Stopped,
    /// Its line of this number, from 1 on, wasn't accepted.
    Line(u64, LineEnd),
}

impl fmt::Display for End {
    ghost use Rattle.std.specs.Prelude.{Some};
    ghost use Rattle.lj_run.specs.OutcomeText.{end_text};

    ghost output = { λ end. Some (end_text end) };

    fn fmt<W: fmt::Write>(&self, f: &mut fmt::Formatter<W>) -> fmt::Result {
        match self {
            End::Ended => f.write_str("ended"),
            End::Stopped => f.write_str("stopped"),
            End::Line(line, why) => write!(f, "line {line}: {why}"),
        }
    }
}

/// Why a line wasn't accepted.
#[derive(Clone, Copy, Debug, PartialEq, Eq)]
pub enum LineEnd {
    /// Its text is at fault.
    Fault(LineFaultKind),
    /// The book refused it.
    Refused(Refusal),
    /// A read of the stream failed.
    ReadFailed,
}

impl fmt::Display for LineEnd {
    ghost use Rattle.std.specs.Prelude.{Some};
    ghost use Rattle.lj_run.specs.OutcomeText.{line_end_text};

    ghost output = { λ end. Some (line_end_text end) };

    fn fmt<W: fmt::Write>(&self, f: &mut fmt::Formatter<W>) -> fmt::Result {
        match self {
            LineEnd::Fault(kind) => write!(f, "{kind}"),
            LineEnd::Refused(refusal) => write!(f, "{refusal}"),
            LineEnd::ReadFailed => f.write_str("ReadFailed"),
        }
    }
}

impl Error for LineEnd {}

impl From<LineFaultKind> for LineEnd {
    ghost use Rattle.lj_run.specs.declared.outcome.LineEnd.TheVariants.{Fault};

    ghost from_gives = { λ kind end. end ≡ Fault kind };

    fn from(kind: LineFaultKind) -> LineEnd {
        LineEnd::Fault(kind)
    }
}

impl From<Refusal> for LineEnd {
    ghost use Rattle.lj_run.specs.declared.outcome.LineEnd.TheVariants.{Refused};

    ghost from_gives = { λ refusal end. end ≡ Refused refusal };

    fn from(refusal: Refusal) -> LineEnd {
        LineEnd::Refused(refusal)
    }
}

/// What became of the proof.
#[derive(Clone, Copy, Debug, PartialEq, Eq)]
pub enum ProofEnd {
    /// None was asked for.
    NotAsked,
    /// The sink took all of it.
    Written,
    /// It couldn't be written.
    Failed(ProofFault),
}

/// Why a proof couldn't be written.
#[derive(Clone, Copy, Debug, PartialEq, Eq)]
pub enum ProofFault {
    /// The sink failed. It took a beginning of the proof, and not all.
    Device,
    /// A growth of memory was refused to the trimmer, or to the copies of the steps that it trims. The sink took nothing.
    NoMemory(NoMemory),
}

/// Why a run has no outcome.
#[derive(Clone, Copy, Debug, PartialEq, Eq, thiserror::Error)]
pub enum RunFault {
    /// The formula's text is at fault.
    #[error("line {}: {}", .0.line, .0.kind)]
    Formula(CnfFault),
    /// A read of the formula failed.
    #[error("a read of the formula failed")]
    FormulaRead,
    /// A growth of memory was refused outside a stream.
    #[error("NoMemory")]
    NoMemory(NoMemory),
    /// The closed book didn't confirm what its seats were told.
    #[error("Unconfirmed")]
    Unconfirmed,
}

impl From<AllocError> for RunFault {
    ghost from_gives = { λ _ fault. fault ≡ run_faults.NoMemory no_memory };

    fn from(e: AllocError) -> RunFault {
        RunFault::NoMemory(e.into())
    }
}

impl<T: Drop> From<AllocFailed<T>> for RunFault {
    ghost from_gives = { λ _ fault. fault ≡ run_faults.NoMemory no_memory };

    fn from(e: AllocFailed<T>) -> RunFault {
        RunFault::NoMemory(e.into())
    }
}

impl From<NoMemory> for RunFault {
    ghost from_gives = { λ e fault. fault ≡ run_faults.NoMemory e };

    fn from(e: NoMemory) -> RunFault {
        RunFault::NoMemory(e)
    }
}
