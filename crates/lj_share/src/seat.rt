//! Seats.
ghost use Rattle.std.specs.Prelude.{◌≡◌, length, drop, Some, Err, IfOk, IfErr, IfSome, slice_get, true};
ghost use Rattle.lj_book.specs.Calls.{IsReply};
ghost use Rattle.lj_book.specs.Solo.{solo_refusal, solo_take};
ghost use Rattle.lj_book.specs.Views.{IsClosedAlone, decided_refusal};
ghost use Rattle.lj_share.specs.Refusals.{IsDecided, line_refusal};
ghost use Rattle.lj_hint.specs.declared.propagate.Ending.TheVariants.{ClosedAfter, StuckAt};
ghost use Rattle.lj_share.specs.inner.Ahead.{IsClosedBy, IsOpenBy, IsRefusedBy, IsPropagatedTo, first_unseen};
ghost use Rattle.lj_share.specs.inner.Seats.{IfClosed, IsOwnOf, IsSeatOf, IsTestedAs, clauses_seen};

use crate::account::Account;
use crate::book_id::BookId;
use crate::copies::SeatCopy;
use crate::dead::{Dead, Room};
use crate::numbered::Numbered;
use crate::own_clauses::OwnClauses;
use crate::taking::case_of;
use lj_book::Refusal;
use lj_clause::{ClauseView, Formula};
use lj_hint::{
    Case, Clauses, Ending, Propagator, Tested, propagate_first, propagations_go_by_clauses,
};
use lj_text::{Addition, Line, Numbers};
use std::alloc::Global;
use std::marker::Model;
use std::sync::ledger::Share;

/// A place at a shared book, for one prover. It can't be copied. Contracts see the calls whose entries were made through it, and
/// what it sees of the book, both in its variables.
#[derive(Drop)]
pub struct Seat<L: BookId> {
    pub(crate) account: Account<L>,
    /// What its own numbers are bound to; nothing once it has left.
    pub(crate) own: Option<OwnClauses>,
    pub(crate) scratch: Room,
}

impl<L: BookId> Model for Seat<L> {
    ghost use Rattle.lj_share.specs.Seats.{SeatValue};
    ghost use Rattle.lj_share.specs.inner.Codes.{seat_code};
    ghost use Rattle.lj_share.specs.inner.Seats.{IsOwnOf};

    ghost Value = { SeatValue };

    ghost coded = { seat_code };

    ghost view = { λ s. s.account };

    ghost invariant = { λ s. IsOwnOf L.formula s.own s.account.view };
}

/// How far an addition is decided by what its seat sees.
#[derive(Clone, Copy, Debug)]
pub(crate) enum Unlocked {
    /// Its first list closes the propagation, after so many hints.
    Closed(usize),
    /// Other clauses may have a say.
    Open,
}

impl<L: BookId> Seat<L> {
    /// The seat of this place, with the clauses that it sees.
    pub(crate) fn new(alloc: Global, account: Account<L>, own: OwnClauses) -> Seat<L>
        requires { IsOwnOf L.formula (Some own) account.view }
        ensures { result ≡ account }
    {
        Seat {
            account,
            own: Some(own),
            scratch: Room::new(alloc),
        }
    }

    /// The seat's number in the book, from 0. Takes constant time.
    pub fn number(&self) -> u32
        ensures { result ≡ self.now.number }
    {
        self.account.number()
    }

    /// How many entries were made through it. Takes constant time.
    pub fn count(&self) -> u64
        ensures { result ≡ length self.now.calls }
    {
        self.account.count()
    }

    /// The test of a line by what the seat sees. Only an addition is tested.
    ///
    /// # Errors
    /// [`Refusal::SeatGone`], [`Refusal::NumberTaken`], [`Refusal::UnknownNumber`], [`Refusal::GroupRepeated`],
    /// [`Refusal::HintNotUnit`], and [`Refusal::NoMemory`] where a growth was refused.
    pub(crate) fn test(
        &mut self,
        alloc: Global,
        formula: &Formula,
        line: &Line,
    ) -> Result<Unlocked, Refusal>
        requires { formula.now ≡ L.formula }
        ensures tested { IfOk result (λ unlocked.
            IsTestedAs self.old.view self.old.number line.now unlocked) }
        ensures refusal { IfErr result (IsDecided (line_refusal self.old line.now)) }
        ensures kept { self.new ≡ self.old }
    {
        match line {
            Line::Add(addition) if addition.groups.is_empty() => {
                self.test_addition(formula, addition)
            }
            Line::Add(addition) => self.test_groups(alloc, formula, addition),
            Line::Delete(_) | Line::Import { .. } => Ok(Unlocked::Open),
        }
    }

    /// The test of an addition by what the seat sees.
    ///
    /// # Errors
    /// As [`Seat::test`].
    fn test_addition(&mut self, formula: &Formula, addition: &Addition) -> Result<Unlocked, Refusal>
        requires { formula.now ≡ L.formula }
        ensures closed { IfOk result (λ unlocked. IfClosed unlocked
            (IsClosedAlone self.old.view self.old.number addition.now)) }
        ensures refusal { IfErr result
            (IsDecided (decided_refusal self.old.view self.old.number addition.now)) }
        ensures kept { self.new ≡ self.old }
    {
        let Some(own) = &self.own else {
            return Err(Refusal::SeatGone);
        };
        test_alone(&self.account, own, formula, &mut self.scratch, addition)
    }

    /// The test of an addition with groups. One whose first list stays open is left to the book, which looks its groups up; any
    /// other is tested as a case.
    ///
    /// # Errors
    /// As [`Seat::test`].
    fn test_groups(
        &mut self,
        alloc: Global,
        formula: &Formula,
        addition: &Addition,
    ) -> Result<Unlocked, Refusal>
        requires { formula.now ≡ L.formula }
        ensures closed { IfOk result (λ unlocked. IfClosed unlocked
            (IsClosedAlone self.old.view self.old.number addition.now)) }
        ensures refusal { IfErr result
            (IsDecided (decided_refusal self.old.view self.old.number addition.now)) }
        ensures kept { self.new ≡ self.old }
    {
        if self.stays_open(formula, addition) {
            return Ok(Unlocked::Open);
        }
        self.test_case(alloc, formula, addition)
    }

    /// Whether the propagation of an addition over its first list stays open, by what the seat sees; false where memory was refused.
    fn stays_open(&mut self, formula: &Formula, addition: &Addition) -> bool
        requires { formula.now ≡ L.formula }
        ensures open { result ≡ true → IsOpenBy (clauses_seen self.old.view) addition.now }
        ensures kept { self.new ≡ self.old }
    {
        let Some(own) = &self.own else {
            return false;
        };
        stays_open_alone(&self.account, own, formula, &mut self.scratch, addition)
    }

    /// The test of an addition as a case, which looks its groups up too.
    ///
    /// # Errors
    /// As [`Seat::test`].
    fn test_case(
        &mut self,
        alloc: Global,
        formula: &Formula,
        addition: &Addition,
    ) -> Result<Unlocked, Refusal>
        requires { formula.now ≡ L.formula }
        ensures closed { IfOk result (λ unlocked. IfClosed unlocked
            (IsClosedAlone self.old.view self.old.number addition.now)) }
        ensures refusal { IfErr result
            (IsDecided (decided_refusal self.old.view self.old.number addition.now)) }
        ensures kept { self.new ≡ self.old }
    {
        let case = match self.take(alloc, formula, addition) {
            Ok(case) => case,
            Err(refusal) => return Err(refusal),
        };
        match case.test(&mut self.scratch.propagator) {
            Tested::Closed(receipt) => Ok(Unlocked::Closed(receipt.listed().len())),
            Tested::Open(_) => Ok(Unlocked::Open),
            Tested::Stuck(position) => Err(Refusal::HintNotUnit(position)),
            Tested::NoMemory(_, refused) => Err(Refusal::NoMemory(refused)),
        }
    }

    /// An addition of the seat as a case in joint numbers.
    ///
    /// # Errors
    /// [`Refusal::SeatGone`], [`Refusal::NumberTaken`], [`Refusal::UnknownNumber`], [`Refusal::GroupRepeated`], and
    /// [`Refusal::NoMemory`] where a growth was refused.
    pub(crate) fn take(
        &self,
        alloc: Global,
        formula: &Formula,
        addition: &Addition,
    ) -> Result<Case, Refusal>
        requires { formula.now ≡ L.formula }
        ensures unlocked { IsReply result
            (solo_take self.now.view self.now.number addition.now) }
        ensures refused { IfSome (solo_refusal self.now.view addition.now.number)
            (λ e. result ≡ Err e) }
        ensures state { IsSeatOf L.formula L.seats L.max_steps self.now }
    {
        self.account.has_state();
        let Some(own) = &self.own else {
            return Err(Refusal::SeatGone);
        };
        if own.get(formula, addition.number).is_some() {
            return Err(Refusal::NumberTaken);
        }
        case_of(alloc, own, formula, self.account.number(), addition)
    }

    /// The seat's number, its share of the ledger, and its copy of itself.
    pub(crate) fn into_parts(self) -> (u32, Share<L>, SeatCopy)
        ensures number { result.0 ≡ self.number }
        ensures parts { result.1.parts ≡ 1 }
        ensures amount { result.1.amount ≡ length self.calls }
        ensures seat { result.2.seat ≡ self }
        ensures named { slice_get L.lists self.number ≡ Some result.2.name }
    {
        self.account.into_parts()
    }
}

/// The test of an addition by what its seat sees, and keeps.
///
/// # Errors
/// As [`Seat::test`].
fn test_alone<L: BookId>(
    account: &Account<L>,
    own: &OwnClauses,
    formula: &Formula,
    scratch: &mut Room,
    addition: &Addition,
) -> Result<Unlocked, Refusal>
    requires formula { formula.now ≡ L.formula }
    requires own { IsOwnOf L.formula (Some own.now) account.now.view }
    ensures closed { IfOk result (λ unlocked. IfClosed unlocked
        (IsClosedBy (clauses_seen account.now.view) addition.now)) }
    ensures refusal { IfErr result (IsRefusedBy (clauses_seen account.now.view) addition.now) }
{
    let seen = SeenClauses {
        account,
        ahead: &[],
        dead: &scratch.dead,
        own,
        formula,
    };
    seen.test(addition, &mut scratch.propagator)
}

/// Whether the propagation of an addition over its first list stays open, by what its seat sees, and keeps; false where memory was
/// refused.
fn stays_open_alone<L: BookId>(
    account: &Account<L>,
    own: &OwnClauses,
    formula: &Formula,
    scratch: &mut Room,
    addition: &Addition,
) -> bool
    requires formula { formula.now ≡ L.formula }
    requires own { IsOwnOf L.formula (Some own.now) account.now.view }
    ensures open { result ≡ true → IsOpenBy (clauses_seen account.now.view) addition.now }
{
    let seen = SeenClauses {
        account,
        ahead: &[],
        dead: &scratch.dead,
        own,
        formula,
    };
    seen.stays_open(addition, &mut scratch.propagator)
}

/// The clauses that a seat sees behind lines that aren't entered yet, lent.
#[derive(Drop)]
pub(crate) struct SeenClauses<'a, L: BookId> {
    pub(crate) account: &'a Account<L>,
    pub(crate) ahead: &'a [Numbered],
    pub(crate) dead: &'a Dead,
    pub(crate) own: &'a OwnClauses,
    pub(crate) formula: &'a Formula,
}

impl<'a, L: BookId> Model for SeenClauses<'a, L> {
    ghost use Rattle.std.specs.Prelude.{◌≡◌, Some};
    ghost use Rattle.lj_clause.specs.ClauseMap.{ClauseMap};
    ghost use Rattle.lj_clause.specs.inner.Codes.{clause_map_code};
    ghost use Rattle.lj_share.specs.inner.Seats.{clauses_seen};
    ghost use Rattle.lj_share.specs.inner.Ahead.{AreKept, clauses_behind};

    ghost Value = { ClauseMap };

    ghost coded = { clause_map_code };

    ghost view = { λ s. clauses_behind (clauses_seen s.account.now.view) s.ahead.now };

    ghost invariant = { λ s. (s.formula.now ≡ L.formula)
        × AreKept L.formula (Some s.own.now) s.dead.now s.account.now.view
        (clauses_behind (clauses_seen s.account.now.view) s.ahead.now) };
}

impl<L: BookId> Clauses for SeenClauses<'_, L> {
    ghost clauses = { λ s. s };

    #[inline(always)]
    fn clause(&self, own: u64) -> Option<ClauseView<'_>> {
        if self.dead.has(own) {
            return None;
        }
        self.own.get(self.formula, own)
    }
}

impl<L: BookId> SeenClauses<'_, L> {
    /// The test of an addition. Each hint is looked up once.
    ///
    /// # Errors
    /// As [`Seat::test`].
    pub(crate) fn test(
        &self,
        addition: &Addition,
        propagator: &mut Propagator,
    ) -> Result<Unlocked, Refusal>
        ensures closed { IfOk result (λ unlocked. IfClosed unlocked
            (IsClosedBy self.now addition.now)) }
        ensures refusal { IfErr result (IsRefusedBy self.now addition.now) }
    {
        let _ = &self.account;
        let _ = &self.ahead;
        if self.clause(addition.number).is_some() {
            return Err(Refusal::NumberTaken);
        }
        if !addition.groups.is_empty() {
            return Ok(Unlocked::Open);
        }
        match propagate_first(self, &addition.lemma, &addition.hints, propagator) {
            Ok(Ending::ClosedAfter(read)) => self.closed_after(addition, read),
            Ok(Ending::StaysOpen) => Ok(Unlocked::Open),
            Ok(Ending::StuckAt(position)) => Err(self.stuck_at(addition, position)),
            Err(refused) => Err(Refusal::NoMemory(refused)),
        }
    }

    /// Whether the propagation of an addition over its first list stays open; false where memory was refused.
    pub(crate) fn stays_open(&self, addition: &Addition, propagator: &mut Propagator) -> bool
        ensures { result ≡ true → IsOpenBy self.now addition.now }
    {
        let _ = &self.account;
        let _ = &self.ahead;
        match propagate_first(self, &addition.lemma, &addition.hints, propagator) {
            Ok(Ending::StaysOpen) => true,
            Ok(_) | Err(_) => false,
        }
    }

    /// The answer where the propagation closed after so many hints: those that weren't read have to be bound too.
    ///
    /// # Errors
    /// [`Refusal::UnknownNumber`].
    fn closed_after(&self, addition: &Addition, read: usize) -> Result<Unlocked, Refusal>
        requires { IsPropagatedTo self.now addition.now (ClosedAfter read) }
        ensures closed { IfOk result (λ unlocked. IfClosed unlocked
            (IsClosedBy self.now addition.now)) }
        ensures refusal { IfErr result (IsRefusedBy self.now addition.now) }
    {
        propagations_go_by_clauses();
        if let Some(own) = self.first_unseen(&addition.hints, read) {
            return Err(Refusal::UnknownNumber(own));
        }
        Ok(Unlocked::Closed(read))
    }

    /// The refusal where the propagation is stuck at a place: the hint there, or one behind it, may be bound to no clause.
    fn stuck_at(&self, addition: &Addition, position: u64) -> Refusal
        requires { IsPropagatedTo self.now addition.now (StuckAt position) }
        ensures { IsRefusedBy self.now addition.now result }
    {
        propagations_go_by_clauses();
        match self.first_unseen(&addition.hints, position.saturating_sub(1) as usize) {
            Some(own) => Refusal::UnknownNumber(own),
            None => Refusal::HintNotUnit(position),
        }
    }

    /// The first of these own numbers, from a place on, that is bound to no clause.
    fn first_unseen(&self, numbers: &Numbers, from: usize) -> Option<u64>
        ensures { result ≡ first_unseen self.now (drop from numbers.now) }
    {
        for index in from..numbers.len() {
            let own = numbers.get(index)?;
            if self.clause(own).is_none() {
                return Some(own);
            }
        }
        None
    }
}
