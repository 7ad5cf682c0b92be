//! Lines of a stream that are handed in together.
ghost use Rattle.std.specs.Prelude.{◌≡◌, ℕ, List, [], None, Some, Ok, IfOk, OnErr};
ghost use Rattle.lj_text.specs.Streams.{SourceState};
ghost use Rattle.lj_run.specs.inner.Block.{BlockRead, ends_block};
ghost use Rattle.lj_run.specs.declared.reading.Next.TheVariants as nexts;
ghost use Rattle.lj_run.specs.inner.Reading.{LineRead};

use lj_clause::NoMemory;
use lj_share::Numbered;
use lj_text::{Line, LineFault, LineReader};

/// Begins a block with a line that the reader has handed out, and reads on into it what the reader has whole, up to so many lines
/// in all, or to one that adds the empty clause. Gives the fault of the line behind them, where it is known. Takes the time of
/// [`LineReader::next`] for each line.
///
/// # Errors
/// [`NoMemory`] where there is no memory for the first line.
pub(crate) fn fill(
    lines: &mut Vec<Numbered>,
    reader: &mut LineReader,
    line: Line,
    most: usize,
) -> Result<Option<LineFault>, NoMemory>
    requires empty { lines.old.items ≡ [] }
    requires no_fault { reader.old.fault ≡ None }
    ensures read { IfOk result (λ fault. (fed : List ℕ) (handed : ℕ) (before after : SourceState)
        → LineRead reader.old.max fed handed reader.old before after (nexts.Line line)
        → BlockRead reader.old.max fed handed reader.new before after lines.new.items fault) }
    ensures kept { OnErr result (reader.new ≡ reader.old) }
    ensures no_fault { result ≡ Ok None → reader.new.fault ≡ None }
    ensures max { reader.new.max ≡ reader.old.max }
    ensures finished { reader.new.finished ≡ reader.old.finished }
{
    let closes = ends_block(&line);
    lines.push(Numbered {
        at: reader.at(),
        line,
    })?;
    if closes {
        return Ok(None);
    }
    Ok(fill_up(lines, reader, most))
}

/// Reads on into a block. Where a growth is refused, the block ends.
fn fill_up(lines: &mut Vec<Numbered>, reader: &mut LineReader, most: usize) -> Option<LineFault>
    requires { reader.old.fault ≡ None }
    ensures read { (fed : List ℕ) (handed : ℕ) (before after : SourceState)
        → BlockRead reader.old.max fed handed reader.old before after lines.old.items None
        → BlockRead reader.old.max fed handed reader.new before after lines.new.items result }
    ensures no_fault { result ≡ None → reader.new.fault ≡ None }
    ensures max { reader.new.max ≡ reader.old.max }
    ensures finished { reader.new.finished ≡ reader.old.finished }
{
    for _ in 1..most {
        if lines.try_reserve(1).is_err() {
            return None;
        }
        let line = match reader.next() {
            Ok(Some(line)) => line,
            Ok(None) => return None,
            Err(fault) => return Some(fault),
        };
        let closes = ends_block(&line);
        lines.push_reserved(Numbered {
            at: reader.at(),
            line,
        });
        if closes {
            return None;
        }
    }
    None
}

/// Whether a line ends its block: one that adds the empty clause, behind which nothing is entered.
fn ends_block(line: &Line) -> bool
    ensures { result ≡ ends_block line.now }
{
    match line {
        Line::Add(addition) => addition.lemma.pivot().is_none(),
        Line::Delete(_) | Line::Import { .. } => false,
    }
}

/// Gives the lines of a block back to the reader. Takes time linear in their number.
pub(crate) fn take_back(lines: &mut Vec<Numbered>, reader: &mut LineReader)
    ensures reader { reader.new ≡ reader.old }
    ensures empty { lines.new.items ≡ [] }
{
    for _ in 0..lines.len() {
        if let Some(numbered) = lines.pop() {
            reader.reuse(numbered.line);
        }
    }
    lines.clear();
}
