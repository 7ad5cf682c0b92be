//! What a seat has of its book's ledger and of its copies.
ghost use Rattle.std.specs.Prelude.{◌≡◌, ◌+◌, ◌<◌, [], length, Some, slice_get, slice_set};
ghost use Rattle.lj_clause.specs.ClauseMap.{IsFormula};
ghost use Rattle.lj_book.specs.Named.{IsNamedReached};
ghost use Rattle.lj_book.specs.NamedAlone.{NamedViewsFollowEntries, NamedDecidedAlone, NamedFreeAlone};
ghost use Rattle.lj_share.specs.Entries.{calls_of};
ghost use Rattle.lj_share.specs.Seats.{seat_of_book, IsOpenedAs};
ghost use Rattle.lj_share.specs.inner.Seats.{AreShown, IsSeatOf};

use crate::book_id::BookId;
use crate::copies::SeatCopy;
use crate::lists::Lists;
use lj_book::laws::history_is_legal;
use lj_book::{Book, decided_alone, free_alone, views_follow_entries};
use std::marker::Model;
use std::sync::ledger::{Book as Tally, Share};

/// The part of a seat that calls under the lock change: its number, its part of the ledger, and its copy of itself.
#[derive(Drop)]
pub(crate) struct Account<L: BookId> {
    number: u32,
    count: u64,
    /// One part of the opening's ledger, and as great an amount as there are entries.
    share: Share<L>,
    copy: SeatCopy,
}

impl<L: BookId> Model for Account<L> {
    ghost use Rattle.std.specs.Prelude.{◌≡◌, Some, length, slice_get};
    ghost use Rattle.lj_share.specs.Seats.{SeatValue};
    ghost use Rattle.lj_share.specs.inner.Codes.{seat_code};
    ghost use Rattle.lj_share.specs.inner.Seats.{IsSeatOf};

    ghost Value = { SeatValue };

    ghost coded = { seat_code };

    ghost view = { λ p. p.copy.seat };

    ghost invariant = { λ p. (p.share.parts ≡ 1) × (p.share.amount ≡ p.count)
        × (p.count ≡ length p.copy.seat.calls) × (slice_get L.lists p.number ≡ Some p.copy.name)
        × (p.copy.seat.number ≡ p.number)
        × IsSeatOf L.formula L.seats L.max_steps p.copy.seat };
}

impl<L: BookId> Account<L> {
    /// The place of a seat through which no entry was made.
    pub(crate) fn new(number: u32, share: Share<L>, copy: SeatCopy) -> Account<L>
        requires part { share.parts ≡ 1 }
        requires empty { share.amount ≡ 0 }
        requires none { copy.seat.calls ≡ [] }
        requires number { copy.seat.number ≡ number }
        requires named { slice_get L.lists number ≡ Some copy.name }
        requires state { IsSeatOf L.formula L.seats L.max_steps copy.seat }
        ensures { result ≡ copy.seat }
    {
        Account {
            number,
            count: 0,
            share,
            copy,
        }
    }

    /// The seat's number in the book, from 0.
    pub(crate) fn number(&self) -> u32
        ensures { result ≡ self.now.number }
    {
        self.number
    }

    /// There is a state of the opening's book in which the seat is this one.
    pub(crate) fn has_state(&self)
        ensures { IsSeatOf L.formula L.seats L.max_steps self.now }
    {
        let _ = &self.count;
    }

    /// How many entries were made through the seat.
    pub(crate) fn count(&self) -> u64
        ensures { result ≡ length self.now.calls }
    {
        self.count
    }

    /// Counts an entry more, which was just made through the seat: here, in the ledger, and in both copies.
    pub(crate) fn count_one(&mut self, entries: &mut Tally<L>, lists: &mut Lists<L>, book: &Book)
        requires made { entries.old.total + 1 ≡ length book.now.history }
        requires one { length (calls_of self.old.number book.now.history)
            ≡ length self.old.calls + 1 }
        requires opened { IsOpenedAs L.formula L.seats L.max_steps book.now }
        ensures seat { self.new ≡ seat_of_book book.now self.old.number }
        ensures entries { entries.new.total ≡ length book.now.history }
        ensures lists { lists.new ≡ slice_set lists.old self.old.number
            (seat_of_book book.now self.old.number) }
        ensures legal { IsNamedReached book.now }
    {
        history_is_legal(book);
        entries.add(&mut self.share, 1);
        entries.audit(&mut self.share);
        lists.follow(&mut self.copy, book, self.number);
        let made = book.history_len();
        prove!(self.count < made);
        self.count += 1;
    }

    /// The book's history is legal, and the seat is that of the book: both copies of it agree, and stay.
    pub(crate) fn agree(&mut self, lists: &mut Lists<L>, book: &Book)
        requires { AreShown book.now lists.old }
        ensures kept { self.new ≡ self.old }
        ensures lists { lists.new ≡ lists.old }
        ensures seat { seat_of_book book.now self.old.number ≡ self.old }
        ensures formula { IsFormula book.now.formula }
        ensures legal { IsNamedReached book.now }
        ensures views { NamedViewsFollowEntries }
        ensures decided { NamedDecidedAlone }
        ensures free { NamedFreeAlone }
    {
        history_is_legal(book);
        views_follow_entries();
        decided_alone();
        free_alone();
        let _ = book.formula().variables();
        let number = self.number;
        lists.follow(&mut self.copy, book, number);
    }

    /// The seat's number, its share of the ledger, and its copy of itself.
    pub(crate) fn into_parts(self) -> (u32, Share<L>, SeatCopy)
        ensures number { result.0 ≡ self.number }
        ensures parts { result.1.parts ≡ 1 }
        ensures amount { result.1.amount ≡ length self.calls }
        ensures seat { result.2.seat ≡ self }
        ensures named { slice_get L.lists self.number ≡ Some result.2.name }
    {
        (self.number, self.share, self.copy)
    }
}
