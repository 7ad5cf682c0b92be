//! Runs of lines, each in one piece of memory.
ghost use Rattle.std.specs.Prelude.{◌≡◌, ◌<◌, ◌≤◌, ◌++◌, ℕ, List, false, length, take, get_or, IsTrue, IfOk, OnOk, OnErr};
ghost use Rattle.std.specs.List.{AllByRecursion, concat};
ghost use Rattle.std.specs.Str.{byte};
ghost use Rattle.lj_text.specs.inner.LinesBuffered.{EndsLine, HasNoLateEnd, IsLineRun, IsLetGo, IsDoneWithin, IsWithinFirst};

use memchr::memchr;
use std::alloc::{AllocError, Global};
use std::collections::VecDeque;
use std::marker::Model;
use std::mem::replace;

/// How many bytes a run has at least: those of a piece of the usual size.
const PIECE: usize = 65_536;

/// Room for the end of a line that is cut, so that a run is mostly not moved to end it.
const SPARE: usize = 8_192;

/// Whole lines: as many bytes as a piece or more, but fewer without the last line.
#[derive(Debug, Drop)]
pub(super) struct Run {
    bytes: Vec<u8>,
}

impl Model for Run {
    ghost Value = { List ℕ };

    ghost view = { λ r. r.bytes.items };
}

impl Run {
    fn new(bytes: Vec<u8>) -> Run
        ensures { result ≡ bytes.items }
    {
        Run { bytes }
    }

    /// Its bytes. Takes constant time.
    pub fn bytes(&self) -> &[u8]
        ensures { result.now ≡ self.now }
    {
        &self.bytes
    }
}

/// Whether the bytes are a run.
fn is_run(bytes: &[u8]) -> bool
    requires { HasNoLateEnd bytes.now }
    ensures long { IsTrue result → 65536 ≤ length bytes.now }
    ensures ended { IsTrue result → EndsLine bytes.now }
    ensures none { result ≡ false
        → (k : ℕ) → 65535 ≤ k → get_or bytes.now k 0 ≡ byte "\n" → ⊥ }
{
    PIECE <= bytes.len() && bytes.last() == Some(&b'\n')
}

/// How many bytes of a piece end the run that was begun: all of them where no line ends late enough.
fn share(begun: &[u8], piece: &[u8]) -> usize
    requires { HasNoLateEnd begun.now }
    ensures within { result ≤ length piece.now }
    ensures ends { result < length piece.now → EndsLine (begun.now ++ take result piece.now) }
    ensures long { result < length piece.now
        → 65536 ≤ length (begun.now ++ take result piece.now) }
    ensures late { HasNoLateEnd (begun.now ++ take result piece.now) }
{
    if is_run(begun) {
        return 0;
    }
    let free = (PIECE - 1).saturating_sub(begun.len());
    if piece.len() <= free {
        return piece.len();
    }
    let (_, rest) = piece.split_at(free);
    match memchr(b'\n', rest) {
        Some(end) => free + end + 1,
        None => piece.len(),
    }
}

/// Bytes as runs, and then what is no run yet.
fn in_runs(alloc: Global, bytes: &[u8]) -> Result<(VecDeque<Run>, Vec<u8>), AllocError>
    ensures bytes { IfOk result (λ cut. concat cut.0.items ++ cut.1.items ≡ bytes.now) }
    ensures whole { IfOk result (λ cut. AllByRecursion IsLineRun cut.0.items) }
    ensures late { IfOk result (λ cut. HasNoLateEnd cut.1.items) }
{
    let mut runs = VecDeque::new(alloc);
    let mut rest = bytes;
    let mut count = share(&[], rest);
    while count < rest.len() {
        let (run, after) = rest.split_at(count);
        runs.push_back(Run::new(Vec::from_slice(alloc, run)?))?;
        rest = after;
        count = share(&[], rest);
    }
    let mut last = Vec::with_capacity(alloc, rest.len().max(PIECE).saturating_add(SPARE))?;
    last.extend_from_slice(rest)?;
    Ok((runs, last))
}

/// Puts a piece behind runs and what is no run yet.
pub(super) fn push_piece(
    alloc: Global,
    runs: &mut VecDeque<Run>,
    rest: &mut Vec<u8>,
    piece: &[u8],
) -> Result<(), AllocError>
    requires whole { AllByRecursion IsLineRun runs.old.items }
    requires late { HasNoLateEnd rest.old.items }
    ensures ok { OnOk result
        (concat runs.new.items ++ rest.new.items
        ≡ (concat runs.old.items ++ rest.old.items) ++ piece.now) }
    ensures err { OnErr result
        ((runs.new.items ≡ runs.old.items) × (rest.new.items ≡ rest.old.items)) }
    ensures whole { AllByRecursion IsLineRun runs.new.items }
    ensures late { HasNoLateEnd rest.new.items }
    ensures begun { (start : ℕ) → IsDoneWithin start runs.old.items rest.old.items
        → IsDoneWithin start runs.new.items rest.new.items }
{
    let (head, tail) = piece.split_at(share(rest, piece));
    if tail.is_empty() {
        if PIECE <= head.len() {
            rest.reserve(head.len().saturating_add(SPARE))?;
        }
        return rest.extend_from_slice(head);
    }
    let (mut more, last) = in_runs(alloc, tail)?;
    runs.reserve(more.len() + 1)?;
    rest.extend_from_slice(head)?;
    runs.push_back_reserved(Run::new(replace(rest, last)));
    runs.append(&mut more)
}

/// Lets go of the runs that end at a place or before it, and tells the place among the others. Takes time linear in the
/// runs that it lets go of.
pub(super) fn let_go(runs: &mut VecDeque<Run>, position: u128) -> u128
    ensures gone { IsLetGo runs.old.items runs.new.items position result }
    ensures within { IsWithinFirst result runs.new.items }
{
    let mut left = position;
    while let Some(run) = runs.front() {
        let size = run.bytes().len() as u128;
        if left < size {
            return left;
        }
        left -= size;
        runs.pop_front();
    }
    left
}
