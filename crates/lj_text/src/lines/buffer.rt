//! What a reader of lines holds of what was fed.
ghost use Rattle.std.specs.Prelude.{◌≡◌, ◌+◌, ◌-◌, ◌<◌, ◌≤◌, ◌∷◌, ◌++◌, ℕ, List, [], length, take, drop, IfNone, IfSome, OnOk, OnErr};
ghost use Rattle.std.specs.List.{concat};
ghost use Rattle.std.specs.Str.{byte};
ghost use Rattle.lj_text.specs.LinesRead.{HasNoLineEnd};
ghost use Rattle.lj_text.specs.inner.LinesBuffered.{BeginsLineAt, IsAheadOfRuns, IsInRuns, IsPassed};

use super::cut::first_line;
use super::runs::{Run, let_go, push_piece};
use std::alloc::{AllocError, Global};
use std::collections::VecDeque;
use std::marker::Model;

/// How much room may stay for bytes to come: that for two pieces of the usual size.
const MOST_CAPACITY: usize = 131_072;

/// The bytes that were fed and aren't done, in the order in which they were fed.
///
/// They stand in runs of whole lines, each in memory of its own, so that no line stands in two. A run is let go of once
/// all of it is done, and what is done of the first is at most a piece of the usual size.
#[derive(Debug, Drop)]
pub(super) struct InputBuffer {
    alloc: Global,
    runs: VecDeque<Run>,
    /// What is no run yet.
    rest: Vec<u8>,
    /// How many of the first bytes are done.
    start: usize,
    /// How many bytes are there, with those that are done.
    count: u128,
}

impl Model for InputBuffer {
    ghost Value = { List ℕ };

    ghost view = { λ h. drop h.start (concat h.runs.items ++ h.rest.items) };

    ghost invariant = { λ h. IsInRuns h.start h.runs.items h.rest.items h.count };
}

impl InputBuffer {
    /// Nothing. Takes constant time.
    pub fn new(alloc: Global) -> InputBuffer
        ensures { result ≡ [] }
    {
        InputBuffer {
            alloc,
            runs: VecDeque::new(alloc),
            rest: Vec::new(alloc),
            start: 0,
            count: 0,
        }
    }

    /// Takes a piece behind what is held. Takes time linear in the piece, amortized.
    ///
    /// # Errors
    /// [`AllocError`] where a growth was refused, and then nothing has changed.
    pub fn push(&mut self, piece: &[u8]) -> Result<(), AllocError>
        ensures ok { OnOk result (self.new ≡ self.old ++ piece.now) }
        ensures err { OnErr result (self.new ≡ self.old) }
    {
        push_piece(self.alloc, &mut self.runs, &mut self.rest, piece)?;
        self.count += piece.len() as u128;
        Ok(())
    }

    /// How many bytes are there, with those that are done. Takes constant time.
    pub fn scratch(&self) -> u128
        ensures all { length self.now ≤ result }
        ensures few { result ≤ length self.now + 65536 }
    {
        self.count
    }

    /// The bytes at the front, as many as stand in one piece of memory. Takes constant time.
    #[inline(always)]
    pub fn front(&self) -> &[u8]
        ensures { (after : List ℕ) × (self.now ≡ result.now ++ after) }
    {
        self.ahead().front
    }

    /// What is held. Takes constant time.
    pub fn ahead(&self) -> Ahead<'_>
        ensures { result ≡ self.now }
    {
        let count = self.count - self.start as u128;
        match self.runs.front() {
            Some(run) => {
                let (_, front) = run.bytes().split_at(self.start);
                Ahead {
                    front,
                    runs: &self.runs,
                    next: 1,
                    rest: &self.rest,
                    count,
                }
            }
            None => {
                let (_, front) = self.rest.split_at(self.start);
                Ahead {
                    front,
                    runs: &self.runs,
                    next: 0,
                    rest: &[],
                    count,
                }
            }
        }
    }

    /// The last bytes, where no line ends among them. Takes constant time.
    pub fn last(&self, count: usize) -> &[u8]
        requires within { count ≤ length self.now }
        requires none { HasNoLineEnd (drop (length self.now - count) self.now) }
        ensures { result.now ≡ drop (length self.now - count) self.now }
    {
        let (_, last) = self.rest.split_at(self.rest.len() - count);
        last
    }

    /// Lets go of the first bytes, which end a line. Takes constant time, but for the runs that it lets go of.
    #[inline(always)]
    pub fn pass_line(&mut self, count: usize)
        requires within { count ≤ length self.old }
        requires ends { BeginsLineAt self.old count }
        ensures { self.new ≡ drop count self.old }
    {
        let front = match self.runs.front() {
            Some(run) => run.bytes().len(),
            None => self.rest.len(),
        };
        if count < front - self.start {
            self.start += count;
        } else {
            self.keep_last(self.count - self.start as u128 - count as u128);
        }
    }

    /// Lets go of all but the last bytes, which begin a line. Takes time linear in the runs that it lets go of.
    #[cold]
    pub fn keep_last(&mut self, count: u128)
        requires within { count ≤ length self.old }
        requires begins { 0 < count → BeginsLineAt self.old (length self.old - count) }
        ensures { self.new ≡ drop (length self.old - count) self.old }
    {
        if count == 0 {
            self.runs.clear();
            empty(&mut self.rest);
            self.start = 0;
            self.count = 0;
            return;
        }
        let position = let_go(&mut self.runs, self.count - count);
        self.start = position as usize;
        self.count = count + position;
    }
}

/// Lets go of all bytes, and of their room where that is long.
fn empty(bytes: &mut Vec<u8>)
    ensures { bytes.new.items ≡ [] }
{
    bytes.clear();
    if MOST_CAPACITY < bytes.capacity() {
        bytes.shrink_to_fit();
    }
}

/// The bytes ahead: lines, the runs that follow, and what is no run yet.
#[derive(Drop)]
pub(super) struct Ahead<'a> {
    front: &'a [u8],
    runs: &'a VecDeque<Run>,
    /// Which of the runs follows.
    next: usize,
    rest: &'a [u8],
    count: u128,
}

impl<'a> Model for Ahead<'a> {
    ghost Value = { List ℕ };

    ghost view = { λ a. a.front.now ++ (concat (drop a.next a.runs.now.items) ++ a.rest.now) };

    ghost invariant = { λ a. IsAheadOfRuns a.front.now (drop a.next a.runs.now.items)
        a.rest.now a.count };
}

impl<'a> Ahead<'a> {
    /// How many bytes there are. Takes constant time.
    pub fn count(&self) -> u128
        ensures { result ≡ length self.now }
    {
        self.count
    }

    /// How many bytes there are, where no line ends among them. Takes constant time.
    pub fn open_count(&self) -> usize
        requires { HasNoLineEnd self.now }
        ensures { result ≡ length self.now }
    {
        self.front.len()
    }

    /// The bytes before the first line feed, and those after it, where it isn't among the first `searched`. Takes time linear
    /// in the bytes behind those, up to it.
    pub fn first_line(&self, searched: usize) -> Option<(&'a [u8], Ahead<'a>)>
        requires within { searched ≤ length self.now }
        requires none_before { HasNoLineEnd (take searched self.now) }
        ensures none { IfNone result (HasNoLineEnd self.now) }
        ensures some { IfSome result
            (λ found. self.now ≡ found.0.now ++ byte "\n" ∷ found.1) }
        ensures line { IfSome result (λ found. HasNoLineEnd found.0.now) }
    {
        let (line, after) = first_line(self.front, searched)?;
        let count = self.count - (line.len() as u128 + 1);
        Some((line, behind(after, self.runs, self.next, self.rest, count)))
    }
}

/// What is ahead, where the front may be used up.
fn behind<'a>(
    front: &'a [u8],
    runs: &'a VecDeque<Run>,
    next: usize,
    rest: &'a [u8],
    count: u128,
) -> Ahead<'a>
    requires { IsPassed front.now (drop next runs.now.items) rest.now count }
    ensures { result ≡ front.now ++ (concat (drop next runs.now.items) ++ rest.now) }
{
    if !front.is_empty() {
        return Ahead {
            front,
            runs,
            next,
            rest,
            count,
        };
    }
    match runs.get(next) {
        Some(run) => Ahead {
            front: run.bytes(),
            runs,
            next: next + 1,
            rest,
            count,
        },
        None => Ahead {
            front: rest,
            runs,
            next,
            rest: front,
            count,
        },
    }
}
