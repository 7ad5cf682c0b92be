//! The reader of lines.
ghost use Rattle.std.specs.Prelude.{◌≡◌, ◌+◌, ◌≤◌, ◌++◌, ◌⊎◌, ℕ, Bool, true, false, List, [], length, Option, Some, None, Ok, Err, IfNone, IfSome, IfErr, IsSome, OnOk, OnErr, MatchBool, MatchResult, slice_get};
ghost use Rattle.lj_text.specs.Bytes.{line_number};
ghost use Rattle.lj_text.specs.Lines.{whole_said, all_said};
ghost use Rattle.lj_text.specs.LinesRead.{LineReaderStandsAt, IsReadingAt, IsSaidAt, IsSaidRight, wants_memory, line_answer, handed_out, fault_of, line_number_of, last_number};
ghost use Rattle.lj_text.specs.inner.LinesBuffered.{IsAhead, reader_past, reader_with_fault};
ghost use Rattle.lj_text.specs.inner.Looking.{Looked, LookedBehind, Fails, FailsToEnd, IsTaken};
ghost use Rattle.lj_clause.specs.declared.lit.TheConstants.{MAX_VARIABLE};

use super::buffer::InputBuffer;
use super::fault::{LineFault, LineFaultKind};
use super::look::{Found, look, look_to_end};
use super::one_pass::line_at_front;
use super::scratch::Scratch;
use crate::line::Line;
use std::alloc::Global;
use std::marker::Model;

/// Reads a stream's lines, by the grammar of LRAT, from pieces of any size.
///
/// It holds what was fed behind the last line that it handed out.
#[derive(Debug, Drop)]
pub struct LineReader {
    scratch: Scratch,
    max: u32,
    buffer: InputBuffer,
    /// No line ends among the first `searched` bytes that are held.
    searched: usize,
    /// The number of the line to be read.
    line: u64,
    at: u64,
    finished: bool,
    fault: Option<LineFault>,
}

impl Model for LineReader {
    ghost use Rattle.lj_text.specs.LinesRead.{LinesRead};
    ghost use Rattle.lj_text.specs.inner.LinesBuffered.{IsBuffered};

    ghost Value = { LinesRead };

    ghost view = { λ r. record {
      max = r.max;
      ahead = r.buffer;
      line = r.line;
      at = r.at;
      finished = r.finished;
      fault = r.fault;
    } };

    ghost invariant = { λ r. IsBuffered r.max r.searched r.line r.buffer };
}

impl LineReader {
    /// A reader at the beginning of an input, for literals of variables up to `max`. Takes constant time.
    pub fn new(alloc: Global, max: u32) -> LineReader
        requires { max ≤ MAX_VARIABLE }
        ensures max { result.max ≡ max }
        ensures stands { LineReaderStandsAt result [] 0 }
        ensures fresh { (result.finished ≡ false) × (result.fault ≡ None) × (result.at ≡ 1) }
    {
        LineReader {
            scratch: Scratch::new(alloc),
            max,
            buffer: InputBuffer::new(alloc),
            searched: 0,
            line: 1,
            at: 1,
            finished: false,
            fault: None,
        }
    }

    /// Takes the next piece of the input, which may be empty. Takes time linear in the piece, amortized.
    ///
    /// # Errors
    /// `NoMemory`, and then the reader is unchanged; after any other fault, that fault.
    pub fn feed(&mut self, piece: &[u8]) -> Result<(), LineFault>
        requires { self.old.finished ≡ false }
        ensures told_again { IfSome self.old.fault (λ fault. result ≡ Err fault) }
        ensures no_other { self.old.fault ≡ None → OnErr result (wants_memory result ≡ true) }
        ensures line { self.old.fault ≡ None → IfErr result (λ fault. fault.line ≡ self.old.line) }
        ensures stands { OnOk result
            ((text : List ℕ) (given : ℕ) → LineReaderStandsAt self.old text given
            → LineReaderStandsAt self.new (text ++ piece.now) given) }
        ensures same { (self.new.max ≡ self.old.max) × (self.new.at ≡ self.old.at)
            × (self.new.finished ≡ false) × (self.new.fault ≡ self.old.fault) }
        ensures unchanged { OnErr result (self.new ≡ self.old) }
    {
        if let Some(fault) = self.fault {
            return Err(fault);
        }
        match self.buffer.push(piece) {
            Ok(()) => Ok(()),
            Err(e) => Err(LineFault {
                kind: e.into(),
                line: self.line,
            }),
        }
    }

    /// The next whole line that says something: `None` where there is none yet. Takes time linear in the bytes of the lines
    /// that it passes, and where it answers `None` in those of the unfinished line that weren't searched yet too; and
    /// O(n log n) time for literals that stand in no order.
    ///
    /// # Errors
    /// The line's fault, and from then on that fault again; `NoMemory` of a line that is right, and then the reader is
    /// unchanged.
    pub fn next(&mut self) -> Result<Option<Line>, LineFault>
        ensures told_again { IfSome self.old.fault
            (λ fault. (result ≡ Err fault) × (self.new ≡ self.old)) }

        // The first whole line that says something and wasn't handed out, or its fault; none exactly where there is none.
        ensures answer { (text : List ℕ) (given : ℕ) → IsReadingAt self.old text given
            → wants_memory result ≡ false
            → result ≡ line_answer (slice_get (whole_said self.old.max text) given) }
        ensures stands { (text : List ℕ) (given : ℕ) → LineReaderStandsAt self.old text given
            → LineReaderStandsAt self.new text (given + handed_out result) }

        // Each fault, want of memory too, is told at that line, and want of memory only where the line is right.
        ensures line { (text : List ℕ) (given : ℕ) → IsReadingAt self.old text given → IfErr result
            (λ fault. IsSaidAt (slice_get (whole_said self.old.max text) given) fault.line) }
        ensures right { (text : List ℕ) (given : ℕ) → IsReadingAt self.old text given
            → wants_memory result ≡ true
            → IsSaidRight (slice_get (whole_said self.old.max text) given) }

        // Its number, or that of the line being read.
        ensures at { (text : List ℕ) (given : ℕ) → IsReadingAt self.old text given
            → wants_memory result ≡ false → self.new.at
            ≡ line_number_of (slice_get (whole_said self.old.max text) given) (last_number text) }

        // Where no whole line is left, the line being read begins what it holds.
        ensures none_left { self.old.fault ≡ None → result ≡ Ok None → self.new.line ≡ self.new.at }

        ensures fault { self.old.fault ≡ None → wants_memory result ≡ false
            → self.new.fault ≡ fault_of result }
        ensures unchanged { wants_memory result ≡ true → self.new ≡ self.old }
        ensures same { (self.new.max ≡ self.old.max) × (self.new.finished ≡ self.old.finished) }
    {
        if let Some(fault) = self.fault {
            return Err(fault);
        }
        if self.finished {
            self.at = self.line;
            return Ok(None);
        }
        if let Some(line) = self.take_first() {
            return Ok(Some(line));
        }
        match self.look_ahead() {
            Ok(found) => Ok(self.pass(found)),
            Err(fault) => {
                self.keep(fault);
                Err(fault)
            }
        }
    }

    /// Ends the input: the next line that says something, the last one too, which no line feed ends; `None` where there is
    /// none. Takes the time of [`LineReader::next`].
    ///
    /// # Errors
    /// The line's fault, and from then on that fault again; `NoMemory` of a line that is right, and then the reader is
    /// unchanged.
    pub fn finish(&mut self) -> Result<Option<Line>, LineFault>
        ensures told_again { IfSome self.old.fault
            (λ fault. (result ≡ Err fault) × (self.new ≡ self.old)) }

        // The first line that says something and wasn't handed out, or its fault; none exactly where there is none.
        ensures answer { (text : List ℕ) (given : ℕ) → IsReadingAt self.old text given
            → wants_memory result ≡ false
            → result ≡ line_answer (slice_get (all_said self.old.max text) given) }
        ensures stands { (text : List ℕ) (given : ℕ) → LineReaderStandsAt self.old text given
            → LineReaderStandsAt self.new text (given + handed_out result) }

        // Each fault, want of memory too, is told at that line, and want of memory only where the line is right.
        ensures line { (text : List ℕ) (given : ℕ) → IsReadingAt self.old text given → IfErr result
            (λ fault. IsSaidAt (slice_get (all_said self.old.max text) given) fault.line) }
        ensures right { (text : List ℕ) (given : ℕ) → IsReadingAt self.old text given
            → wants_memory result ≡ true
            → IsSaidRight (slice_get (all_said self.old.max text) given) }

        // Its number, or that of the last line.
        ensures at { (text : List ℕ) (given : ℕ) → IsReadingAt self.old text given
            → wants_memory result ≡ false → self.new.at
            ≡ line_number_of (slice_get (all_said self.old.max text) given) (last_number text) }

        ensures fault { self.old.fault ≡ None → wants_memory result ≡ false
            → self.new.fault ≡ fault_of result }
        ensures unchanged { wants_memory result ≡ true → self.new ≡ self.old }
        ensures max { self.new.max ≡ self.old.max }
    {
        if let Some(fault) = self.fault {
            return Err(fault);
        }
        if self.finished {
            self.at = self.line;
            return Ok(None);
        }
        match self.look_to_end() {
            Ok((found, true)) => {
                let line = self.pass(found);
                self.finished = true;
                Ok(line)
            }
            Ok((found, false)) => Ok(self.pass(found)),
            Err(fault) => {
                self.keep(fault);
                Err(fault)
            }
        }
    }

    /// Takes a line back that is done, so that a line to come is written where it stood. Lets go of the room of a long one.
    /// Takes constant time.
    #[inline(always)]
    pub fn reuse(&mut self, line: Line)
        ensures { self.new ≡ self.old }
    {
        match line {
            Line::Add(addition) => {
                let mut target = addition.into_box();
                target.hints.let_go_of_many();
                target.groups.let_go_of_many();
                let _ = self.scratch.take_back(target);
            }
            Line::Delete(_) | Line::Import { .. } => {}
        }
    }

    /// The number of the line that was handed out last; after an answer without a line, of the line being read.
    /// Takes constant time.
    pub fn at(&self) -> u64
        ensures { result ≡ self.now.at }
    {
        self.at
    }

    /// How many bytes it holds of what was fed: those not yet handed out, and beside them at most a piece of 65,536.
    /// Takes constant time.
    pub fn buffered(&self) -> u128
        ensures all { length self.now.ahead ≤ result }
        ensures few { result ≤ length self.now.ahead + 65536 }
    {
        self.buffer.scratch()
    }

    /// Takes the first line, where it is whole and in the usual form: whoever looks on reads any other, also one for which
    /// memory was refused. The beginning of a line that was searched isn't read again, so that the pieces of a long line
    /// take linear time.
    #[inline(always)]
    fn take_first(&mut self) -> Option<Line>
        ensures some { IfSome result (λ line. IsTaken self.old self.new (Some line)) }
        ensures none { IfNone result (self.new ≡ self.old) }
    {
        if self.searched != 0 {
            return None;
        }
        let bytes = self.buffer.front();
        let (line, after) = line_at_front(&mut self.scratch, self.max, bytes)?;
        let count = bytes.len() - after.len();
        self.buffer.pass_line(count);
        self.at = self.line;
        self.line = self.line.saturating_add(1);
        Some(line)
    }

    /// The next whole line that says something.
    fn look_ahead(&mut self) -> Result<Found, LineFault>
        ensures found { (k : ℕ) → self.old.line ≡ line_number k
            → MatchResult result (λ found. Looked self.old.max k self.old.ahead found)
            (λ fault. Fails self.old.max k self.old.ahead fault) }
        ensures counted { (k : ℕ) × (self.old.line ≡ line_number k) }
        ensures same { self.new ≡ self.old }
    {
        look(
            &mut self.scratch,
            self.max,
            self.line,
            &self.buffer,
            self.searched,
        )
    }

    /// The same, up to the end of the input.
    fn look_to_end(&mut self) -> Result<(Found, bool), LineFault>
        ensures found { (k : ℕ) → self.old.line ≡ line_number k → MatchResult result
            (λ found. MatchBool found.1 (LookedBehind self.old.max k self.old.ahead found.0)
            (Looked self.old.max k self.old.ahead found.0 × IsSome found.0.line))
            (λ fault. FailsToEnd self.old.max k self.old.ahead fault) }
        ensures counted { (k : ℕ) × (self.old.line ≡ line_number k) }
        ensures same { self.new ≡ self.old }
    {
        look_to_end(
            &mut self.scratch,
            self.max,
            self.line,
            &self.buffer,
            self.searched,
        )
    }

    /// Goes on behind what was found.
    fn pass(&mut self, found: Found) -> Option<Line>
        requires { IsAhead self.old.ahead found }
        ensures line { result ≡ found.line }
        ensures passed { self.new ≡ reader_past self.old found }
    {
        self.buffer.keep_last(found.left);
        self.searched = found.searched;
        self.line = found.number;
        self.at = found.at;
        found.line
    }

    /// Keeps a fault, but for the want of memory.
    fn keep(&mut self, fault: LineFault)
        ensures { self.new ≡ reader_with_fault self.old fault }
    {
        if !matches!(fault.kind, LineFaultKind::NoMemory(_)) {
            self.at = fault.line;
            self.fault = Some(fault);
        }
    }
}
