//! The shared book.
ghost use Rattle.std.specs.Prelude.{◌≡◌, ◌==◌, ◌+◌, ◌<◌, ◌≤◌, ◌++◌, [], length, map, take, slice_get, is_ok, OnOk, OnErr, OnSome, IfOk, IfErr, IfSome, Err, None, Some};
ghost use Rattle.lj_clause.specs.Truth.{IsUnsatisfiable};
ghost use Rattle.lj_book.specs.declared.entry.Call.TheVariants as calls;
ghost use Rattle.lj_book.specs.Calls.{IsReply};
ghost use Rattle.lj_share.specs.Entered.{AreEntered};
ghost use Rattle.lj_share.specs.Entries.{call_of, IsEntryOf};
ghost use Rattle.lj_book.specs.Solo.{solo_refusal, solo_take};
ghost use Rattle.lj_book.specs.Named.{IsNamedReached, named_opening};
ghost use Rattle.lj_book.specs.NamedViews.{named_take};
ghost use Rattle.lj_book.specs.NamedReplies.{named_commit, named_adopt, named_leave};
ghost use Rattle.lj_share.specs.Refusals.{HoldsInAState, IsLineRefused, IsBindingRefused, IsOpenRefusal, IsRefusedAt, IsToldIfDecided, gone_refusal, line_refusal};
ghost use Rattle.lj_share.specs.Seats.{AreSeatsIn, IsMaking, IsOpenedAs, IsSeen, entries_made, new_seats};
ghost use Rattle.lj_share.specs.inner.Seats.{AreShown, IsTestedAs};
ghost use Rattle.lj_share.specs.declared.numbered.Numbered.{Numbered};
ghost use Rattle.lj_share.specs.inner.WithEntry.{IsTokenOf};

use crate::account::Account;
use crate::book_id::BookId;
use crate::closed::Closed;
use crate::copies::SeatCopy;
use crate::entry_log::EntryLog;
use crate::gate::{Gate, NoGate};
use crate::kept::{begin, bind_ahead, finish, free, settle, take_back, unbind};
use crate::lists::Lists;
use crate::locked_book::LockedBook;
use crate::numbered::Numbered;
use crate::opening_parts::OpeningParts;
use crate::own_clauses::OwnClauses;
use crate::runs::{begin_run, finish_run, take_back_run};
use crate::seat::{Seat, Unlocked};
use crate::told::Told;
use crate::verdict::{Note, Verdict};
use lj_book::laws::history_is_legal;
use lj_book::{
    Book, Entry, Refusal, Verified, decided_alone, free_alone, seats_hold_the_formula,
    takes_are_alone,
};
use lj_clause::{Formula, NoMemory};
use lj_hint::{Case, Receipt};
use lj_text::{Addition, Line};
use once_cell::race::OnceBox;
use std::alloc::Global;
use std::marker::Model;
use std::sync::ledger::Share;
use std::sync::{Mutex, MutexGuard, Wait};

/// How often the lock is tried before a thread sleeps for it.
const TRIES: u32 = 64;

/// How many looks at the verdict lie between two tries.
const LOOKS: u32 = 64;

/// A book that its seats share, on as many threads as they are on. A line is tested outside its lock as far as what its seat
/// sees decides it. Lines, receipts and the calls in entries speak their seat's variables, as in [`Book`].
#[derive(Drop)]
pub struct Shared<L: BookId> {
    locked_book: Mutex<LockedBook<L>>,
    /// The verdict, once an entry has added the empty clause and it was published.
    verdict: OnceBox<Verdict<L>>,
    /// The entries of the tokens, which are read without the lock. Only a call that holds the lock adds to them.
    log: EntryLog<L>,
    seats: u32,
    /// The formula once more, so that its clauses are read without the lock.
    formula: Formula,
    alloc: Global,
}

impl<L: BookId> Model for Shared<L> {
    ghost use Rattle.std.specs.Prelude.{◌≡◌, ℕ};
    ghost use Rattle.once_cell.specs.Once.{cell_name};

    ghost Value = { ℕ };

    ghost view = { λ s. cell_name s.verdict };

    ghost invariant = { λ s. (s.seats ≡ L.seats) × (s.formula ≡ L.formula) };
}

/// Not all seats were handed in: the shared book, and those that were.
#[derive(Drop)]
pub struct SeatsOut<L: BookId> {
    pub shared: Shared<L>,
    pub seats: Vec<Seat<L>>,
}

impl<L: BookId> Shared<L> {
    /// A new book for so many seats, and the seats, by rising number. Each holds the clauses of the formula under their
    /// numbers. The history takes at most `max_steps` additions. The parts are those of the opening, made for so many seats.
    /// Takes the time of [`Book::open`], and for each seat a byte for each clause of the formula.
    ///
    /// # Errors
    /// [`NoMemory`] where a growth was refused.
    pub fn open(
        alloc: Global,
        opening_parts: OpeningParts,
        formula: Formula,
        seats: u32,
        max_steps: u32,
    ) -> Result<(Shared<L>, Vec<Seat<L>>), NoMemory>
        requires name { opening_parts.name ≡ L.name }
        requires parts { (opening_parts.parts ≡ L.parts) × (opening_parts.parts ≡ seats) }
        requires lists { opening_parts.lists ≡ L.lists }
        requires log { opening_parts.log ≡ L.log }
        requires formula { formula ≡ L.formula }
        requires seats { (0 < seats) × (seats ≡ L.seats) }
        requires limit { max_steps ≡ L.max_steps }
        ensures seats { IfOk result (λ opened. opened.1.items ≡ new_seats formula seats) }
    {
        let shown = formula.try_clone()?;
        let book = Book::open(alloc, formula, seats, max_steps)?;
        let OpeningParts {
            ledger,
            locked_book,
            seats: copies,
            log,
        } = opening_parts;
        let (entries, mut rest) = ledger.open::<L>();
        let mut lists = Lists::new(locked_book);
        let out = seats_of(alloc, &mut rest, &mut lists, copies, &book, &shown)?;
        let shared = Shared {
            locked_book: Mutex::new(LockedBook::new(alloc, book, entries, lists, rest)),
            verdict: OnceBox::new(alloc),
            log: EntryLog::new(log),
            seats,
            formula: shown,
            alloc,
        };
        Ok((shared, out))
    }

    /// Hands a line of the seat's prover to the book, and gives the token of its entry. An addition is tested outside the lock, by
    /// what the seat sees, and then entered; one whose propagation over its first list stays open is tested and entered under the
    /// lock. Takes constant time for each number of the line and each literal of its hints, amortized, or O(log n) for numbers
    /// beyond the slots; under the lock, the time of [`Book::add_closed`], [`Book::add_inside`], [`Book::import`] or
    /// [`Book::drop_numbers`].
    ///
    /// # Errors
    /// The refusals of [`Book`]'s calls.
    pub fn submit<R: Wait>(
        &self,
        rt: &R,
        seat: &mut Seat<L>,
        line: &Line,
    ) -> Result<Told<L>, Refusal>
        ensures told { IfOk result (λ told. IsEntryOf seat.old.number (call_of line.now) told) }
        ensures made { OnOk result (IsMaking (call_of line.now) seat.old seat.new) }
        ensures free { OnOk result (line_refusal seat.old line.now ≡ None) }
        ensures decided { IsToldIfDecided (line_refusal seat.old line.now) result }
        ensures open { line_refusal seat.old line.now ≡ None
            → IfErr result (IsOpenRefusal line.now) }
        ensures kept { OnErr result (seat.new ≡ seat.old) }
        ensures refusal { IfErr result (IsLineRefused L.formula L.seats L.max_steps seat.old
            line.now) }
    {
        self.submit_at(rt, seat, line, 0, &NoGate)
    }

    /// The same for the line of this number, with a gate round it. Takes the time of [`Shared::submit`], and that of the
    /// gate.
    ///
    /// # Errors
    /// As [`Shared::submit`].
    pub fn submit_at<R: Wait, G: Gate>(
        &self,
        rt: &R,
        seat: &mut Seat<L>,
        line: &Line,
        at: u64,
        gate: &G,
    ) -> Result<Told<L>, Refusal>
        ensures told { IfOk result (λ told. IsEntryOf seat.old.number (call_of line.now) told) }
        ensures made { OnOk result (IsMaking (call_of line.now) seat.old seat.new) }
        ensures free { OnOk result (line_refusal seat.old line.now ≡ None) }
        ensures decided { IsToldIfDecided (line_refusal seat.old line.now) result }
        ensures open { line_refusal seat.old line.now ≡ None
            → IfErr result (IsOpenRefusal line.now) }
        ensures kept { OnErr result (seat.new ≡ seat.old) }
        ensures refusal { IfErr result (IsLineRefused L.formula L.seats L.max_steps seat.old
            line.now) }
    {
        match self.hand_in(rt, seat, line, at, gate, true)? {
            Some(told) => Ok(told),
            None => unreachable!(),
        }
    }

    /// The same without a token, for who needs none: that the line was entered, and just once, is known of the seat. Takes the
    /// time of [`Shared::submit_at`].
    ///
    /// # Errors
    /// As [`Shared::submit`].
    pub fn enter_at<R: Wait, G: Gate>(
        &self,
        rt: &R,
        seat: &mut Seat<L>,
        line: &Line,
        at: u64,
        gate: &G,
    ) -> Result<(), Refusal>
        ensures made { OnOk result (IsMaking (call_of line.now) seat.old seat.new) }
        ensures free { OnOk result (line_refusal seat.old line.now ≡ None) }
        ensures decided { IsToldIfDecided (line_refusal seat.old line.now) result }
        ensures open { line_refusal seat.old line.now ≡ None
            → IfErr result (IsOpenRefusal line.now) }
        ensures kept { OnErr result (seat.new ≡ seat.old) }
        ensures refusal { IfErr result (IsLineRefused L.formula L.seats L.max_steps seat.old
            line.now) }
    {
        self.hand_in(rt, seat, line, at, gate, false)?;
        Ok(())
    }

    /// Hands in lines of the seat's prover, in order, each as [`Shared::enter_at`] does, up to the first that is refused; gives how
    /// many were entered, and the refusal of the next one. Additions that close by what the seat sees, and deletions, are entered in
    /// one hold of the lock, as many as follow one another. An addition of a number that such a deletion names begins the next.
    /// Takes the time of [`Shared::enter_at`] for each line.
    pub fn enter_lines<R: Wait, G: Gate>(
        &self,
        rt: &R,
        seat: &mut Seat<L>,
        lines: &[Numbered],
        gate: &G,
    ) -> (usize, Option<Refusal>)
        ensures entered { AreEntered seat.old (take result.0 lines.now) seat.new }
        ensures number { seat.new.number ≡ seat.old.number }
        ensures calls { seat.new.calls
            ≡ seat.old.calls ++ map (λ l. call_of l.line) (take result.0 lines.now) }
        ensures all { result.1 ≡ None → result.0 ≡ length lines.now }
        ensures refused { IfSome result.1 (λ e. (line : Numbered)
            × (slice_get lines.now result.0 ≡ Some line)
            × IsLineRefused L.formula L.seats L.max_steps seat.new line.line e) }
    {
        let (mut reads, mut joints) = self.scratch(lines.len());
        let mut done = 0;
        for _ in 0..lines.len() {
            let rest = &lines[done..];
            let (entered, refusal) = self.enter_some(rt, seat, rest, &mut reads, &mut joints, gate);
            done += entered;
            if refusal.is_some() {
                return (done, refusal);
            }
            if done == lines.len() {
                return (done, None);
            }
        }
        (done, None)
    }

    /// Room for how many hints each of so many lines reads, and for their joint numbers; none where memory for it was refused.
    fn scratch(&self, lines: usize) -> (Vec<usize>, Vec<u64>)
        ensures { length result.0.items ≡ length result.1.items }
    {
        let reads = Vec::from_elem(self.alloc, 0, lines);
        let joints = Vec::from_elem(self.alloc, 0, lines);
        match (reads, joints) {
            (Ok(reads), Ok(joints)) => (reads, joints),
            _ => (Vec::new(self.alloc), Vec::new(self.alloc)),
        }
    }

    /// Enters the run that these lines start with, or the first of them where it is in no run.
    fn enter_some<R: Wait, G: Gate>(
        &self,
        rt: &R,
        seat: &mut Seat<L>,
        lines: &[Numbered],
        reads: &mut [usize],
        joints: &mut [u64],
        gate: &G,
    ) -> (usize, Option<Refusal>)
        requires { length reads.old ≡ length joints.old }
        ensures entered { AreEntered seat.old (take result.0 lines.now) seat.new }
        ensures reads { length reads.new ≡ length reads.old }
        ensures joints { length joints.new ≡ length joints.old }
        ensures within { result.0 ≤ length lines.now }
        ensures some { result.1 ≡ None → 0 < length lines.now → 0 < result.0 }
        ensures refused { IfSome result.1 (λ e. (line : Numbered)
            × (slice_get lines.now result.0 ≡ Some line)
            × IsLineRefused L.formula L.seats L.max_steps seat.new line.line e) }
    {
        let (entered, refusal, open) = self.enter_run(rt, seat, lines, reads, joints, gate);
        if refusal.is_some() || entered > 0 && !open {
            return (entered, refusal);
        }
        let Some(next) = lines.get(entered) else {
            return (entered, None);
        };
        match self.enter_next(rt, seat, next, open, gate) {
            Ok(()) => (entered + 1, None),
            Err(refusal) => (entered, Some(refusal)),
        }
    }

    /// Enters a line behind a run. One that is known to stay open goes to the book at once.
    fn enter_next<R: Wait, G: Gate>(
        &self,
        rt: &R,
        seat: &mut Seat<L>,
        next: &Numbered,
        open: bool,
        gate: &G,
    ) -> Result<(), Refusal>
        ensures made { OnOk result (IsMaking (call_of next.now.line) seat.old seat.new) }
        ensures free { OnOk result (line_refusal seat.old next.now.line ≡ None) }
        ensures kept { OnErr result (seat.new ≡ seat.old) }
        ensures refusal { IfErr result (IsLineRefused L.formula L.seats L.max_steps seat.old
            next.now.line) }
    {
        if open {
            self.hand_over(rt, seat, &next.line, next.at, gate, Unlocked::Open, false)?;
            return Ok(());
        }
        self.enter_at(rt, seat, &next.line, next.at, gate)
    }

    /// Enters the run that these lines start with in one hold of the lock, up to the first line that the book refuses; gives how many
    /// lines were entered, the refusal, and whether the line behind is an addition that what the seat sees leaves open.
    fn enter_run<R: Wait, G: Gate>(
        &self,
        rt: &R,
        seat: &mut Seat<L>,
        lines: &[Numbered],
        reads: &mut [usize],
        joints: &mut [u64],
        gate: &G,
    ) -> (usize, Option<Refusal>, bool)
        requires { length reads.old ≡ length joints.old }
        ensures entered { AreEntered seat.old (take result.0 lines.now) seat.new }
        ensures reads { length reads.new ≡ length reads.old }
        ensures joints { length joints.new ≡ length joints.old }
        ensures within { result.0 ≤ length lines.now }
        ensures refused { IfSome result.1 (λ e. (line : Numbered)
            × (slice_get lines.now result.0 ≡ Some line)
            × IsLineRefused L.formula L.seats L.max_steps seat.new line.line e) }
    {
        let number = seat.number();
        let Seat {
            account,
            own,
            scratch,
        } = seat;
        let (count, open) = begin_run(account, own, &self.formula, scratch, lines, reads);
        if count == 0 {
            return (0, None, open);
        }
        let run = &lines[..count];
        pass_all(gate, number, run);
        let mut locked_book = self.locked_book(rt);
        locked_all(gate, number, run);
        let (entered, refusal) = locked_book.enter_run(account, lines, reads, joints, count);
        self.release(locked_book);
        answered_all(gate, number, run);
        finish_run(own, run, joints, entered);
        take_back_run(own, run, entered);
        (entered, refusal, open)
    }

    /// Hands a line in, and gives its token where one is asked for.
    fn hand_in<R: Wait, G: Gate>(
        &self,
        rt: &R,
        seat: &mut Seat<L>,
        line: &Line,
        at: u64,
        gate: &G,
        with_entry: bool,
    ) -> Result<Option<Told<L>>, Refusal>
        ensures told { IfOk result (IsTokenOf with_entry seat.old.number (call_of line.now)) }
        ensures made { OnOk result (IsMaking (call_of line.now) seat.old seat.new) }
        ensures free { OnOk result (line_refusal seat.old line.now ≡ None) }
        ensures decided { IsToldIfDecided (line_refusal seat.old line.now) result }
        ensures open { line_refusal seat.old line.now ≡ None
            → IfErr result (IsOpenRefusal line.now) }
        ensures kept { OnErr result (seat.new ≡ seat.old) }
        ensures refusal { IfErr result (IsLineRefused L.formula L.seats L.max_steps seat.old
            line.now) }
    {
        decided_alone();
        free_alone();
        let _ = self.formula.variables();
        self.test_and_hand_over(rt, seat, line, at, gate, with_entry)
    }

    /// As [`Shared::hand_in`]: a line that what the seat sees refuses doesn't reach the book.
    fn test_and_hand_over<R: Wait, G: Gate>(
        &self,
        rt: &R,
        seat: &mut Seat<L>,
        line: &Line,
        at: u64,
        gate: &G,
        with_entry: bool,
    ) -> Result<Option<Told<L>>, Refusal>
        ensures told { IfOk result (IsTokenOf with_entry seat.old.number (call_of line.now)) }
        ensures made { OnOk result (IsMaking (call_of line.now) seat.old seat.new) }
        ensures free { OnOk result (line_refusal seat.old line.now ≡ None) }
        ensures kept { OnErr result (seat.new ≡ seat.old) }
        ensures refusal { IfErr result (IsLineRefused L.formula L.seats L.max_steps seat.old
            line.now) }
    {
        let unlocked = seat.test(self.alloc, &self.formula, line)?;
        self.hand_over(rt, seat, line, at, gate, unlocked, with_entry)
    }

    /// Hands a line over that was tested, and gives its token where one is asked for.
    fn hand_over<R: Wait, G: Gate>(
        &self,
        rt: &R,
        seat: &mut Seat<L>,
        line: &Line,
        at: u64,
        gate: &G,
        unlocked: Unlocked,
        with_entry: bool,
    ) -> Result<Option<Told<L>>, Refusal>
        requires { IsTestedAs seat.old.view seat.old.number line.now unlocked }
        ensures told { IfOk result (IsTokenOf with_entry seat.old.number (call_of line.now)) }
        ensures made { OnOk result (IsMaking (call_of line.now) seat.old seat.new) }
        ensures free { OnOk result (line_refusal seat.old line.now ≡ None) }
        ensures kept { OnErr result (seat.new ≡ seat.old) }
        ensures refusal { IfErr result (IsLineRefused L.formula L.seats L.max_steps seat.old
            line.now) }
    {
        let number = seat.number();
        let Seat {
            account,
            own,
            scratch: _,
        } = seat;
        if let Err(refusal) = begin(own, &self.formula, line) {
            return Err(refusal);
        }
        gate.pass(number, at);
        let mut locked_book = self.locked_book(rt);
        gate.locked(number, at);
        let answer = self
            .log
            .enter(rt, &mut locked_book, account, line, unlocked, with_entry);
        self.release(locked_book);
        gate.answered(number, at);
        match answer {
            Ok((told, joint)) => {
                finish(own, line, joint);
                Ok(told)
            }
            Err(refusal) => {
                take_back(own, line);
                Err(refusal)
            }
        }
    }

    /// An addition under the seat's numbers as a case in joint numbers, which can be tested without the book. Its lemma and its
    /// clauses are in the seat's variables. The seat's own table decides it, so it waits for nobody. Takes constant time for each
    /// number of the addition, or O(log n) for numbers beyond the slots and for each group; the literals of the clauses are shared.
    ///
    /// # Errors
    /// As [`Book::take`].
    pub fn take(&self, seat: &mut Seat<L>, addition: &Addition) -> Result<Case, Refusal>
        ensures unlocked { IsReply result
            (solo_take seat.old.view seat.old.number addition.now) }
        ensures refused { IfSome (solo_refusal seat.old.view addition.now.number)
            (λ e. result ≡ Err e) }
        ensures answer { HoldsInAState L.formula L.seats L.max_steps seat.old
            (λ s. IsReply result (named_take s seat.old.number addition.now)) }
        ensures seat { IfOk result (λ case. case.seat ≡ seat.old.number) }
        ensures own { IfOk result (λ case. case.own ≡ addition.now.number) }
        ensures lemma { IfOk result (λ case. case.lemma ≡ addition.now.lemma) }
        ensures kept { seat.new ≡ seat.old }
    {
        takes_are_alone();
        seat.take(self.alloc, &self.formula, addition)
    }

    /// Enters the lemma of a receipt of this seat, while the clauses that it lists still live. Takes the time of [`Book::commit`].
    ///
    /// # Errors
    /// With the receipt, as [`Book::commit`].
    pub fn commit<R: Wait>(
        &self,
        rt: &R,
        seat: &mut Seat<L>,
        receipt: Receipt,
    ) -> Result<Told<L>, (Refusal, Receipt)>
        requires { receipt.seat ≡ seat.old.number }
        ensures told { IfOk result
            (IsEntryOf seat.old.number (calls.Add receipt.own receipt.lemma)) }
        ensures made { OnOk result
            (IsMaking (calls.Add receipt.own receipt.lemma) seat.old seat.new) }
        ensures free { OnOk result (solo_refusal seat.old.view receipt.own ≡ None) }
        ensures kept { OnErr result (seat.new ≡ seat.old) }
        ensures back { IfErr result (λ e. e.1 ≡ receipt) }
        ensures refusal { IfErr result (λ e. IsBindingRefused L.formula L.seats L.max_steps seat.old
            receipt.own (λ s. named_commit s receipt) e.0) }
    {
        let own = receipt.own();
        let Seat {
            account,
            own: kept,
            scratch: _,
        } = seat;
        if let Err(refusal) = bind_ahead(kept, &self.formula, own, receipt.lemma().clause()) {
            return Err((refusal, receipt));
        }
        let mut locked_book = self.locked_book.lock(rt);
        if let Err(refused) = self.log.reserve() {
            unbind(kept, own);
            return Err((refused.into(), receipt));
        }
        match locked_book.commit(account, receipt) {
            Ok((entry, joint)) => {
                let told = self.keep(rt, locked_book, entry);
                settle(kept, own, joint);
                Ok(told)
            }
            Err(refused) => {
                self.release(locked_book);
                unbind(kept, own);
                Err(refused)
            }
        }
    }

    /// Binds the seat's own number to a joint number that lives, where its clause names no variable above the formula's but such as
    /// the seat was given. Takes the time of [`Book::adopt`] and of [`Book::clause_for`], whose clause the seat keeps.
    ///
    /// # Errors
    /// As [`Book::adopt`].
    pub fn adopt<R: Wait>(
        &self,
        rt: &R,
        seat: &mut Seat<L>,
        own: u64,
        joint: u64,
    ) -> Result<Told<L>, Refusal>
        ensures told { IfOk result (IsEntryOf seat.old.number (calls.Adopt own joint)) }
        ensures made { OnOk result (IsMaking (calls.Adopt own joint) seat.old seat.new) }
        ensures free { OnOk result (solo_refusal seat.old.view own ≡ None) }
        ensures kept { OnErr result (seat.new ≡ seat.old) }
        ensures refusal { IfErr result (IsBindingRefused L.formula L.seats L.max_steps seat.old own
            (λ s. named_adopt s seat.old.number own joint)) }
    {
        let Seat {
            account,
            own: kept,
            scratch: _,
        } = seat;
        if let Err(refusal) = free(kept, &self.formula, own) {
            return Err(refusal);
        }
        let mut locked_book = self.locked_book.lock(rt);
        self.log.reserve()?;
        let entry = locked_book.adopt(&self.formula, account, kept, own, joint)?;
        Ok(self.keep(rt, locked_book, entry))
    }

    /// Ends the seat's bindings. Its later calls are refused. Takes the time of [`Book::leave`], and time linear in what the
    /// seat knows by itself, which it lets go of.
    ///
    /// # Errors
    /// As [`Book::leave`].
    pub fn leave<R: Wait>(&self, rt: &R, seat: &mut Seat<L>) -> Result<Told<L>, Refusal>
        ensures told { IfOk result (IsEntryOf seat.old.number calls.Leave) }
        ensures made { OnOk result (IsMaking calls.Leave seat.old seat.new) }
        ensures free { OnOk result (gone_refusal seat.old.view ≡ None) }
        ensures kept { OnErr result (seat.new ≡ seat.old) }
        ensures refusal { IfErr result (IsRefusedAt L.formula L.seats L.max_steps seat.old
            (λ s. named_leave s seat.old.number)) }
    {
        let Seat {
            account,
            own,
            scratch: _,
        } = seat;
        let mut locked_book = self.locked_book.lock(rt);
        account.has_state();
        self.log.reserve()?;
        let entry = locked_book.leave(account)?;
        let told = self.keep(rt, locked_book, entry);
        *own = None;
        Ok(told)
    }

    /// The entry that a token of this book stands for, the same one for good. Waits for nobody. Takes constant time, and no memory.
    pub fn told<'a>(&'a self, told: &Told<L>) -> &'a Entry
        ensures { result.now ≡ told.now }
    {
        self.log.entry(told)
    }

    /// The place of the first entry that adds the empty clause, if there is one by now: then no assignment satisfies the formula
    /// that the book was opened with. Waits for nobody. That the place is that of such an entry has no clause: of what lies
    /// under a plain lock only what stays true of the opening outlives the guard. It is seen once the book is closed. Takes
    /// constant time.
    pub fn verdict_now(&self) -> Option<u64>
        ensures { OnSome result (IsUnsatisfiable L.formula) }
    {
        let verdict = self.verdict.get()?;
        let _verified = verdict.verified();
        Some(verdict.position())
    }

    /// A note that has seen no verdict yet, to look for the verdict with. Takes constant time, and no memory.
    pub fn note(&self) -> Note<L>
        ensures cell { result.cell ≡ self.now }
        ensures fresh { result.position ≡ None }
    {
        Note::new(self.verdict.note())
    }

    /// The verdict, if one was published by now: the formula that the book was opened with, which no assignment satisfies. A note
    /// that once gave a verdict never gives `None` or another one again. The note is one of this shared book. Waits for nobody.
    /// Takes constant time, and no memory.
    pub fn verdict_seen<'a>(&'a self, note: &mut Note<L>) -> Option<&'a Verified>
        requires { note.old.cell ≡ self.now }
        ensures cell { note.new.cell ≡ note.old.cell }
        ensures formula { IfSome result (λ verified. verified.now ≡ L.formula) }
        ensures unsatisfiable { OnSome result (IsUnsatisfiable L.formula) }
        ensures seen { OnSome result (IsSeen note.old.position note.new.position) }
        ensures unseen { result ≡ None → (note.old.position ≡ None) × (note.new.position ≡ None) }
    {
        let verdict = self.verdict.get_as(&mut note.seen)?;
        Some(verdict.verified())
    }

    /// What lies under the lock. It is held for about a microsecond, so it is tried for a while before a thread sleeps for it.
    fn locked_book<R: Wait>(&self, rt: &R) -> MutexGuard<'_, LockedBook<L>> {
        for _ in 0..TRIES {
            if let Some(locked_book) = self.locked_book.try_lock() {
                return locked_book;
            }
            self.pause();
        }
        self.locked_book.lock(rt)
    }

    /// Lets a few hundred cycles pass, in which nothing is written that others read.
    fn pause(&self) {
        for _ in 0..LOOKS {
            let _ = self.verdict.get();
        }
    }

    /// Keeps the entry of a call, for which a place was reserved under this hold of the lock, and gives the lock back.
    fn keep<R: Wait>(
        &self,
        rt: &R,
        locked_book: MutexGuard<'_, LockedBook<L>>,
        entry: Entry,
    ) -> Told<L>
        ensures { result ≡ entry }
    {
        let told = self.log.keep(rt, entry);
        self.release(locked_book);
        told
    }

    /// Gives the lock back, and then lets all see the verdict of the book, if it has one. Where memory for it is refused, the next
    /// call that makes an entry tries again.
    fn release(&self, locked_book: MutexGuard<'_, LockedBook<L>>) {
        let verdict = match self.verdict.get() {
            Some(_) => None,
            None => locked_book.verdict(self.alloc),
        };
        drop(locked_book);
        if let Some(verdict) = verdict {
            let _ = self.verdict.set(verdict);
        }
    }

    /// Gives the book out of the lock, where all seats are handed in. Takes no memory, and time linear in the seats and in
    /// what is let go of: what they know by themselves, and the formula that they read without the lock.
    ///
    /// # Errors
    /// [`SeatsOut`], with all that was handed in, where some seat is missing.
    pub fn close(self, seats: Vec<Seat<L>>) -> Result<Closed<L>, SeatsOut<L>>
        requires { L.parts ≡ L.seats }
        ensures all { is_ok result ≡ (length seats.items == L.seats) }
        ensures legal { IfOk result (λ closed. IsNamedReached closed) }
        ensures entries { IfOk result (λ closed. length closed.history ≡ entries_made seats.items) }
        ensures seats { IfOk result (λ closed. AreSeatsIn closed seats.items) }
        ensures out { IfErr result (λ out. out.seats.items ≡ seats.items) }
    {
        if seats.len() as u64 != u64::from(self.seats) {
            return Err(SeatsOut {
                shared: self,
                seats,
            });
        }
        let (book, mut entries, mut lists, rest) = self.locked_book.into_inner().into_parts();
        let mut all = gathered(&book, &mut lists, rest, seats);
        entries.audit(&mut all);
        history_is_legal(&book);
        Ok(Closed::new(book, self.log))
    }
}

/// Calls the gate for lines that are about to be handed to the book.
fn pass_all<G: Gate>(gate: &G, seat: u32, lines: &[Numbered]) {
    for line in lines {
        gate.pass(seat, line.at);
    }
}

/// Calls the gate for lines that the lock is held for.
fn locked_all<G: Gate>(gate: &G, seat: u32, lines: &[Numbered]) {
    for line in lines {
        gate.locked(seat, line.at);
    }
}

/// Calls the gate for lines whose answers stand.
fn answered_all<G: Gate>(gate: &G, seat: u32, lines: &[Numbered]) {
    for line in lines {
        gate.answered(seat, line.at);
    }
}

/// The seats of a new book of a formula, by rising number, each with a part of the ledger and one of these copies, which shows it.
///
/// # Errors
/// [`NoMemory`] where a growth was refused.
fn seats_of<L: BookId>(
    alloc: Global,
    rest: &mut Share<L>,
    lists: &mut Lists<L>,
    copies: Vec<SeatCopy>,
    book: &Book,
    formula: &Formula,
) -> Result<Vec<Seat<L>>, NoMemory>
    requires parts { rest.old.parts ≡ length copies.items }
    requires few { length copies.items < 4294967296 }
    requires amount { rest.old.amount ≡ 0 }
    requires named { map (λ c. c.name) copies.items ≡ L.lists }
    requires many { length lists.old ≡ length copies.items }
    requires formula { formula.now ≡ L.formula }
    requires opened { book.now
        ≡ named_opening formula.now (length copies.items) book.now.max_steps }
    requires state { IsOpenedAs L.formula L.seats L.max_steps book.now }
    ensures seats { IfOk result (λ out. out.items ≡ new_seats formula.now (length copies.items)) }
    ensures shown { OnOk result (AreShown book.now lists.new) }
    ensures parts { OnOk result (rest.new.parts ≡ 0) }
    ensures amount { OnOk result (rest.new.amount ≡ 0) }
{
    seats_hold_the_formula();
    history_is_legal(book);
    let mut out = Vec::new(alloc);
    let mut number = 0;
    for copy in copies {
        let mut shown = copy;
        lists.follow(&mut shown, book, number);
        let account = Account::new(number, rest.split_off(1, 0), shown);
        out.push(Seat::new(alloc, account, OwnClauses::new(alloc, formula)?))?;
        number += 1;
    }
    Ok(out)
}

/// The shares of these seats, put together with the rest. Their copies agree with those of the locked book.
fn gathered<L: BookId>(
    book: &Book,
    lists: &mut Lists<L>,
    mut rest: Share<L>,
    seats: Vec<Seat<L>>,
) -> Share<L>
    requires { AreShown book.now lists.old }
    ensures parts { result.parts ≡ rest.parts + length seats.items }
    ensures amount { result.amount ≡ rest.amount + entries_made seats.items }
    ensures seats { AreSeatsIn book.now seats.items }
{
    for seat in seats {
        let (number, share, mut copy) = seat.into_parts();
        lists.follow(&mut copy, book, number);
        rest.merge(share);
    }
    rest
}
