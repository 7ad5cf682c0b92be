//! Formulas and the lines of streams, read from their sources in pieces.
ghost use Rattle.std.specs.Prelude.{◌≡◌, ◌<◌, ℕ, List, [], length, true, false, OnOk, OnErr, IfOk, IfErr};
ghost use Rattle.std.specs.Io.KnownBytes.{Keeps};
ghost use Rattle.lj_text.specs.Cnf.{Spells};
ghost use Rattle.lj_text.specs.LinesRead.{LineReaderStandsAt};
ghost use Rattle.lj_text.specs.Streams.{source_state, HasEnded};
ghost use Rattle.lj_run.specs.inner.FormulaReading.{FormulaReadOn, IsFaultAtEnd};
ghost use Rattle.lj_run.specs.FormulaReading.{GaveFormula, IsFormulaFault};
ghost use Rattle.lj_run.specs.inner.Reading.{MayRead, PieceRead, LineRead, LineMissed, PieceMissed, reads_failed};

use crate::outcome::RunFault;
use crate::watch::{StreamWatch, Watch};
use lj_clause::{Formula, MAX_VARIABLE};
use lj_text::{CnfFaultKind, CnfReader, Line, LineFault, LineReader, Source, SourceFault};
use std::alloc::Global;
use std::sync::Wait;

/// The most bytes that are pulled at a time.
pub(crate) const PIECE: usize = 65_536;

/// The formula that a source's bytes spell. A source that has failed is told before a fault of its text. Takes the time
/// of the source's pulls, of [`CnfReader::feed`] for each piece and of [`CnfReader::finish`].
pub(crate) fn read_formula<R: Wait, F: Source>(
    rt: &R,
    alloc: Global,
    source: &mut F,
) -> Result<Formula, RunFault>
    requires { F.failures source.old ≡ 0 }
    ensures formula { IfOk result
        (GaveFormula (source_state F.given F.ended F.rest F.failures source.old)
        (source_state F.given F.ended F.rest F.failures source.new)) }
    ensures fault { IfErr result
        (IsFormulaFault (source_state F.given F.ended F.rest F.failures source.old)
        (source_state F.given F.ended F.rest F.failures source.new)) }
{
    let mut reader = CnfReader::new(alloc, MAX_VARIABLE);
    let mut scratch = [0; PIECE];
    for _ in rt.forever() {
        match pull_formula(source, &mut reader, &mut scratch) {
            Ok(true) => return finish_formula(reader),
            Ok(false) => {}
            Err(SourceFault) => return Err(RunFault::FormulaRead),
        }
    }
    unreachable!()
}

/// Pulls a piece and feeds it on, and tells whether the source has ended. A fault of the text is kept by the reader.
fn pull_formula<F: Source>(
    source: &mut F,
    reader: &mut CnfReader,
    scratch: &mut [u8],
) -> Result<bool, SourceFault>
    requires scratch { 0 < length scratch.old }
    requires unfailed { F.failures source.old ≡ 0 }

    ensures onward { OnOk result (FormulaReadOn reader.old reader.new
        (source_state F.given F.ended F.rest F.failures source.old)
        (source_state F.given F.ended F.rest F.failures source.new)) }
    ensures ended { IfOk result (λ ended. ended ≡ true
        → HasEnded (source_state F.given F.ended F.rest F.failures source.new)) }

    ensures unfailed { OnOk result (F.failures source.new ≡ 0) }
    ensures failed { OnErr result (F.failures source.new ≡ 1) }
    ensures none_given { OnErr result (F.given source.new ≡ F.given source.old) }
    ensures kept { OnErr result (Keeps (F.rest source.old) (F.rest source.new)) }
    ensures max { reader.new.max ≡ reader.old.max }
{
    let count = source.pull(scratch)?;
    if count == 0 {
        return Ok(true);
    }
    let _ = reader.feed(&scratch[..count]);
    Ok(false)
}

/// The formula that a reader was fed, once its source has ended.
fn finish_formula(reader: CnfReader) -> Result<Formula, RunFault>
    ensures formula { IfOk result (λ formula. Spells reader.max reader.fed formula) }
    ensures fault { IfErr result (IsFaultAtEnd reader) }
{
    match reader.finish() {
        Ok(formula) => Ok(formula),
        Err(fault) => match fault.kind {
            CnfFaultKind::NoMemory(e) => Err(RunFault::NoMemory(e)),
            _ => Err(RunFault::Formula(fault)),
        },
    }
}

/// Why there is no next line.
#[derive(Clone, Copy, Debug)]
pub(crate) enum Miss {
    /// A read of the source failed.
    Failed,
    /// The line is at fault, or memory was refused.
    AtFault(LineFault),
}

/// What a call for the next line of a stream comes to.
#[derive(Debug, Drop)]
pub(crate) enum Next {
    /// The next line.
    Line(Line),
    /// A piece was read, or the source has ended since: the call is made again.
    More,
    /// No line is left, and the source has ended.
    End,
}

/// The next line of a stream, with at most one piece pulled into the room. `ended` says that the source came to its end.
pub(crate) fn next_line<S: Source, V: Watch>(
    watch: &StreamWatch<'_, V>,
    source: &mut S,
    reader: &mut LineReader,
    ended: &mut bool,
    scratch: &mut [u8],
) -> Result<Next, Miss>
    requires scratch { 0 < length scratch.old }
    requires unfailed { S.failures source.old ≡ 0 }
    requires may_read { MayRead reader.old ended.old }
    requires ended { ended.old ≡ true
        → HasEnded (source_state S.given S.ended S.rest S.failures source.old) }

    ensures next { IfOk result (λ next. (fed : List ℕ) (handed : ℕ)
        → LineReaderStandsAt reader.old fed handed → LineRead reader.old.max fed handed reader.new
        (source_state S.given S.ended S.rest S.failures source.old)
        (source_state S.given S.ended S.rest S.failures source.new) next) }
    ensures miss { IfErr result (λ miss. (fed : List ℕ) (handed : ℕ)
        → LineReaderStandsAt reader.old fed handed → LineMissed reader.old.max fed handed
        reader.new.at (source_state S.given S.ended S.rest S.failures source.old)
        (source_state S.given S.ended S.rest S.failures source.new) miss) }

    ensures may_read { OnOk result (MayRead reader.new ended.new) }
    ensures ended { OnOk result (ended.new ≡ true
        → HasEnded (source_state S.given S.ended S.rest S.failures source.new)) }
    ensures unfailed { OnOk result (S.failures source.new ≡ 0) }
    ensures failures { IfErr result (λ miss. S.failures source.new ≡ reads_failed miss) }
    ensures max { reader.new.max ≡ reader.old.max }
{
    if *ended {
        return match reader.finish() {
            Ok(Some(line)) => Ok(Next::Line(line)),
            Ok(None) => Ok(Next::End),
            Err(fault) => Err(Miss::AtFault(fault)),
        };
    }
    match reader.next() {
        Ok(Some(line)) => Ok(Next::Line(line)),
        Ok(None) => {
            pull_piece(watch, source, reader, ended, scratch)?;
            Ok(Next::More)
        }
        Err(fault) => Err(Miss::AtFault(fault)),
    }
}

/// Pulls a piece and feeds it on, or sees that the source has ended.
#[cold]
fn pull_piece<S: Source, V: Watch>(
    watch: &StreamWatch<'_, V>,
    source: &mut S,
    reader: &mut LineReader,
    ended: &mut bool,
    scratch: &mut [u8],
) -> Result<(), Miss>
    requires scratch { 0 < length scratch.old }
    requires unfailed { S.failures source.old ≡ 0 }
    requires may_read { MayRead reader.old ended.old }
    requires goes_on { ended.old ≡ false }

    ensures onward { OnOk result
        ((fed : List ℕ) (handed : ℕ) → LineReaderStandsAt reader.old fed handed → PieceRead fed
        handed reader.new (source_state S.given S.ended S.rest S.failures source.old)
        (source_state S.given S.ended S.rest S.failures source.new)) }
    ensures miss { IfErr result (PieceMissed reader.old reader.new
        (source_state S.given S.ended S.rest S.failures source.old)
        (source_state S.given S.ended S.rest S.failures source.new)) }

    ensures may_read { OnOk result (MayRead reader.new ended.new) }
    ensures ended { OnOk result (ended.new ≡ true
        → HasEnded (source_state S.given S.ended S.rest S.failures source.new)) }
    ensures unfailed { OnOk result (S.failures source.new ≡ 0) }
    ensures failures { IfErr result (λ miss. S.failures source.new ≡ reads_failed miss) }
    ensures max { reader.new.max ≡ reader.old.max }
    ensures at { reader.new.at ≡ reader.old.at }
{
    match source.pull(scratch) {
        Ok(0) => {
            *ended = true;
            Ok(())
        }
        Ok(count) => {
            watch.read(count);
            match reader.feed(&scratch[..count]) {
                Ok(()) => Ok(()),
                Err(fault) => Err(Miss::AtFault(fault)),
            }
        }
        Err(_) => Err(Miss::Failed),
    }
}
