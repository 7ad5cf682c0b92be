//! Closed books.
ghost use Rattle.std.specs.Prelude.{◌≡◌, ◌↔◌, IsTrue};
ghost use Rattle.lj_share.specs.Entries.{entries_of};
ghost use Rattle.lj_share.specs.Seats.{IsOpenedAs};

use crate::book_id::BookId;
use crate::entry_log::EntryLog;
use crate::told::Told;
use lj_book::Book;
use std::marker::{Model, PhantomData};

/// A book that was shared, and whose seats were all handed in. Its formula, its seats' number and its limit are the opening's.
#[derive(Drop)]
pub struct Closed<L: BookId> {
    book: Book,
    log: EntryLog<L>,
    opening: PhantomData<L>,
}

impl<L: BookId> Model for Closed<L> {
    ghost use Rattle.lj_book.specs.Named.{NamedState};
    ghost use Rattle.lj_book.specs.inner.Codes.{named_state_code};
    ghost use Rattle.lj_share.specs.Seats.{IsOpenedAs};

    ghost Value = { NamedState };

    ghost coded = { named_state_code };

    ghost view = { λ c. c.book };

    ghost invariant = { λ c. IsOpenedAs L.formula L.seats L.max_steps c.book };
}

impl<L: BookId> Closed<L> {
    /// The closed book of this one, with the log of its opening.
    pub(crate) fn new(book: Book, log: EntryLog<L>) -> Closed<L>
        requires { IsOpenedAs L.formula L.seats L.max_steps book }
        ensures { result ≡ book }
    {
        Closed {
            book,
            log,
            opening: PhantomData,
        }
    }

    /// The book. Takes constant time.
    pub fn book(&self) -> &Book
        ensures book { result.now ≡ self.now }
        ensures opened { IsOpenedAs L.formula L.seats L.max_steps self.now }
    {
        &self.book
    }

    /// The book, by value. Takes constant time.
    pub fn into_book(self) -> Book
        ensures book { result ≡ self }
        ensures opened { IsOpenedAs L.formula L.seats L.max_steps self }
    {
        self.book
    }

    /// Whether the seat's entries in the history are exactly those of these tokens, in this order. Takes no memory, and
    /// time linear in the history and in the contents of the seat's entries.
    pub fn confirm(&self, seat: u32, told: &[Told<L>]) -> bool
        ensures { IsTrue result ↔ (entries_of seat self.now.history ≡ told.now) }
    {
        let log = &self.log;
        let mut rest = told;
        for position in 0..self.book.history_len() {
            if let Some(by) = self.book.seat_at(position) {
                if by == seat {
                    match rest.split_first() {
                        Some((first, others)) if self.book.is_entry(position, log.entry(first)) => {
                            rest = others;
                        }
                        _ => return false,
                    }
                }
            }
        }
        rest.is_empty()
    }
}
